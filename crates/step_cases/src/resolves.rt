// Resolves.
use crate::bench::{Bench, Memory, UNWRITTEN, number, oid, row};
use crate::outcome::{Outcome, must, refused};
use catalog::faults::Layer;
use heap::books::FULL;
use keys::span::Span;
use offers::offer::OfferedRow;
use requests::asked::TypeAsked;
use std::alloc::{AllocError, Global};
use type_info::oid::Oid;

// 256 entries: the names of the first so many numbers, over and over.
fn names(alloc: Global, count: u32) -> Result<Vec<TypeAsked>, AllocError> {
    let mut entries = Vec::new(alloc);
    for i in 0..256u32 {
        entries.push(TypeAsked::Name(number(i.checked_rem(count).unwrap_or(0))))?;
    }
    Ok(entries)
}

fn arrays(alloc: Global, count: u32) -> Result<Vec<TypeAsked>, AllocError> {
    let mut entries = Vec::new(alloc);
    for i in 0..256u32 {
        entries.push(TypeAsked::ArrayOf(number(i.checked_rem(count).unwrap_or(0))))?;
    }
    Ok(entries)
}

// A buffer of four slots more than there are entries.
fn buffer(alloc: Global) -> Result<Vec<u32>, AllocError> {
    vec![in alloc; UNWRITTEN; 260]
}

// The slots of 256 entries have the OIDs of so many numbers from `first` on, over and over, and the last four are as they were.
fn check_written(out: &[u32], first: u32, count: u32) -> anyhow::Result<()> {
    let mut i = 0u32;
    for slot in out {
        let turn = i.checked_rem(count).unwrap_or(0);
        let wanted = if i < 256 {
            oid(first.wrapping_add(turn))
        } else {
            UNWRITTEN
        };
        must("a slot", *slot, wanted)?;
        i = i.saturating_add(1);
    }
    must("slots", i, 260)
}

fn whole(rt: &HostRuntime, memory: &mut Memory) -> anyhow::Result<()> {
    let entries = names(rt.alloc(), 256)?;
    let mut out = buffer(rt.alloc())?;
    let mut bench = memory.bench(FULL)?;
    bench.add_simple(0, 256)?;
    let told = bench.resolve(entries.as_slice(), out.as_mut_slice());
    must("256 names", told, Outcome::Accepted(1, 0))?;
    must("names", bench.book.taken().names, 256)?;
    check_written(out.as_slice(), 0, 256)?;
    println!(rt; "a resolve of 256 names: count 1")?;
    Ok(())
}

fn twice(rt: &HostRuntime, memory: &mut Memory) -> anyhow::Result<()> {
    let entries = names(rt.alloc(), 128)?;
    let mut out = buffer(rt.alloc())?;
    let mut bench = memory.bench(FULL)?;
    bench.add_simple(0, 256)?;
    let told = bench.resolve(entries.as_slice(), out.as_mut_slice());
    must("128 names twice", told, Outcome::Accepted(1, 0))?;
    must("described", bench.book.taken().descriptors, 128)?;
    must("names", bench.book.taken().names, 128)?;
    check_written(out.as_slice(), 0, 128)?;
    println!(rt; "a resolve of 128 names twice: count 1")?;
    Ok(())
}

// 128 elements, and an array of each behind them.
fn add_arrays(bench: &mut Bench<'_>) -> anyhow::Result<()> {
    for i in 0..128u32 {
        let array = i.wrapping_add(128);
        bench.add(OfferedRow {
            typarray: Some(Oid(oid(array))),
            ..row(i)
        })?;
        bench.add(OfferedRow {
            typcategory: b'A',
            typelem: Some(Oid(oid(i))),
            ..row(array)
        })?;
    }
    Ok(())
}

fn whole_arrays(rt: &HostRuntime, memory: &mut Memory) -> anyhow::Result<()> {
    let entries = arrays(rt.alloc(), 128)?;
    let mut out = buffer(rt.alloc())?;
    let mut bench = memory.bench(FULL)?;
    add_arrays(&mut bench)?;
    let told = bench.resolve(entries.as_slice(), out.as_mut_slice());
    must("128 arrays twice", told, Outcome::Accepted(1, 0))?;
    must("described", bench.book.taken().descriptors, 256)?;
    must("names", bench.book.taken().names, 256)?;
    must("array links", bench.book.taken().arrays, 128)?;
    check_written(out.as_slice(), 128, 128)?;
    println!(rt; "a resolve of 128 arrays twice: count 1")?;
    Ok(())
}

// The array of each of 256 elements is the built-in array of int4.
fn one_array(rt: &HostRuntime, memory: &mut Memory) -> anyhow::Result<()> {
    let entries = arrays(rt.alloc(), 256)?;
    let mut out = buffer(rt.alloc())?;
    let mut bench = memory.bench(FULL)?;
    for i in 0..256u32 {
        bench.add(OfferedRow {
            typarray: Some(Oid(1007)),
            ..row(i)
        })?;
    }
    let told = bench.resolve(entries.as_slice(), out.as_mut_slice());
    must("256 arrays", told, Outcome::Accepted(1, 0))?;
    must("array links", bench.book.taken().arrays, 256)?;
    for slot in out.as_slice().iter().take(256) {
        must("a slot", *slot, 1007)?;
    }
    println!(rt; "a resolve of 256 arrays: count 1")?;
    Ok(())
}

fn one_entry_more(rt: &HostRuntime, memory: &mut Memory) -> anyhow::Result<()> {
    let mut entries = names(rt.alloc(), 256)?;
    entries.push(TypeAsked::Oid(Oid(23)))?;
    let mut out = buffer(rt.alloc())?;
    let mut bench = memory.bench(FULL)?;
    let told = bench.resolve(entries.as_slice(), out.as_mut_slice());
    must("257 entries", told, refused(1, 256, Layer::Call, 0))?;
    must("allowance", bench.rows.allowance(), 64)?;
    must(
        "the first slot",
        out.as_slice().first().copied(),
        Some(UNWRITTEN),
    )?;
    println!(rt; "a resolve of 257 entries: refused 1")?;
    Ok(())
}

// As long as the text may have it, and as the first entry behind an OID that is taken as it is.
fn named(memory: &mut Memory, entry: TypeAsked, wanted: Outcome) -> anyhow::Result<()> {
    let mut out = [UNWRITTEN; 2];
    let mut bench = memory.bench(FULL)?;
    let told = bench.resolve(&[TypeAsked::Oid(Oid(23)), entry], &mut out);
    must("a name at its limit", told, wanted)?;
    must("the first slot", out[0], UNWRITTEN)
}

fn lengths(rt: &HostRuntime, memory: &mut Memory) -> anyhow::Result<()> {
    let long = |length: u32| Span { start: 0, length };
    let no_oid = refused(10, 1, Layer::Call, 1);
    let bad_name = refused(3, 1, Layer::Call, 0);
    named(memory, TypeAsked::Name(long(128)), no_oid)?;
    named(memory, TypeAsked::Name(long(129)), bad_name)?;
    named(memory, TypeAsked::Name(long(0)), bad_name)?;
    named(memory, TypeAsked::ArrayOf(long(126)), no_oid)?;
    named(memory, TypeAsked::ArrayOf(long(127)), bad_name)?;
    named(memory, TypeAsked::ArrayOf(long(0)), bad_name)?;
    let end = |start: u32, length: u32| TypeAsked::Name(Span { start, length });
    named(memory, end(4095, 1), no_oid)?;
    named(memory, end(4095, 2), bad_name)?;
    named(memory, end(4294967295, 1), bad_name)?;
    println!(rt;
        "names of 128 bytes and elements of 126: taken; one byte more, none, or outside the text: refused 3"
    )?;
    Ok(())
}

pub fn cases(rt: &HostRuntime, memory: &mut Memory) -> anyhow::Result<()> {
    whole(rt, memory)?;
    twice(rt, memory)?;
    whole_arrays(rt, memory)?;
    one_array(rt, memory)?;
    one_entry_more(rt, memory)?;
    lengths(rt, memory)
}
