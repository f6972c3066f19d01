// Fills.
use crate::bench::{Memory, domain, oid, oids};
use crate::outcome::{Outcome, must, refused};
use catalog::faults::Layer;
use heap::books::FULL;

// 256 simple types, and once more.
fn whole(rt: &HostRuntime, memory: &mut Memory) -> anyhow::Result<()> {
    let list = oids(rt.alloc(), 0, 256)?;
    let mut bench = memory.bench(FULL)?;
    bench.add_simple(0, 256)?;
    must(
        "a fill of 256",
        bench.fill(list.as_slice()),
        Outcome::Accepted(1, 0),
    )?;
    must("described", bench.book.taken().descriptors, 256)?;
    must("names", bench.book.taken().names, 256)?;
    must("text", bench.book.taken().text, 2048)?;
    must("allowance", bench.rows.allowance(), 63)?;
    must(
        "once more",
        bench.fill(list.as_slice()),
        Outcome::Accepted(0, 0),
    )?;
    must("allowance", bench.rows.allowance(), 63)?;
    println!(rt; "a fill of 256 types: count 1, and 0 once more")?;
    Ok(())
}

// As many chains of 64 as are asked for, filled from their heads.
fn chains(rt: &HostRuntime, memory: &mut Memory, count: u32) -> anyhow::Result<()> {
    let mut heads = Vec::new(rt.alloc());
    let mut bench = memory.bench(FULL)?;
    for i in 0..count {
        let from = i.wrapping_mul(64);
        bench.add_chain(from, 64)?;
        heads.push(oid(from))?;
    }
    must(
        "chains",
        bench.fill(heads.as_slice()),
        Outcome::Accepted(64, 0),
    )?;
    must(
        "described",
        bench.book.taken().descriptors,
        heads.len().saturating_mul(64),
    )?;
    must("allowance", bench.rows.allowance(), 0)?;
    println!(rt; "a fill of the heads of {count} chains of 64: count 64")?;
    Ok(())
}

// All of four chains of 64: each link stands in round 1.
fn listed_chains(rt: &HostRuntime, memory: &mut Memory) -> anyhow::Result<()> {
    let list = oids(rt.alloc(), 0, 256)?;
    let mut bench = memory.bench(FULL)?;
    for i in 0..4u32 {
        bench.add_chain(i.wrapping_mul(64), 64)?;
    }
    must(
        "listed chains",
        bench.fill(list.as_slice()),
        Outcome::Accepted(1, 0),
    )?;
    must("described", bench.book.taken().descriptors, 256)?;
    println!(rt; "a fill of all that 4 chains of 64 have: count 1")?;
    Ok(())
}

// 256 rows stand in round 1, and the last is a domain over an OID that stands in round 2.
fn one_row_more(rt: &HostRuntime, memory: &mut Memory) -> anyhow::Result<()> {
    let list = oids(rt.alloc(), 0, 256)?;
    let mut bench = memory.bench(FULL)?;
    bench.add_simple(0, 255)?;
    bench.add(domain(255, oid(256)))?;
    let wanted = refused(7, oid(256), Layer::Fill, 2);
    must("a 257th row", bench.fill(list.as_slice()), wanted)?;
    must("described", bench.book.taken().descriptors, 0)?;
    must("allowance", bench.rows.allowance(), 62)?;
    println!(rt; "a fill that comes to a 257th row: refused 7, nothing is kept")?;
    Ok(())
}

fn one_entry_more(rt: &HostRuntime, memory: &mut Memory) -> anyhow::Result<()> {
    let list = oids(rt.alloc(), 0, 257)?;
    let mut bench = memory.bench(FULL)?;
    let wanted = refused(1, 256, Layer::Call, 0);
    must("257 entries", bench.fill(list.as_slice()), wanted)?;
    must("allowance", bench.rows.allowance(), 64)?;
    println!(rt; "a fill of 257 entries: refused 1")?;
    Ok(())
}

pub fn cases(rt: &HostRuntime, memory: &mut Memory) -> anyhow::Result<()> {
    whole(rt, memory)?;
    chains(rt, memory, 2)?;
    chains(rt, memory, 4)?;
    listed_chains(rt, memory)?;
    one_row_more(rt, memory)?;
    one_entry_more(rt, memory)
}
