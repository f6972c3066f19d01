// Steps on a full book: what adds to a full table is refused, and what adds to others is not.
use crate::bench::{Bench, Memory, number, oid, oids, row};
use crate::binds::{Answers, bind_whole};
use crate::outcome::{Outcome, must, refused};
use book::sizes::Sizes;
use catalog::faults::Layer;
use heap::books::FULL;
use requests::asked::TypeAsked;
use std::alloc::Global;

// A book of 512 descriptors, from two row tables; the third has one type more, and another name of the first.
fn fill_up(alloc: Global, bench: &mut Bench<'_>) -> anyhow::Result<()> {
    for from in [0, 256] {
        let list = oids(alloc, from, 256)?;
        bench.add_simple(from, 256)?;
        must(
            "a fill of 256",
            bench.fill(list.as_slice()),
            Outcome::Accepted(1, 0),
        )?;
        bench.turn();
    }
    must("described", bench.book.taken().descriptors, 512)?;
    bench.add_simple(512, 1)?;
    bench.add(row(0))?;
    bench.add_name(900, 0)?;
    bench.add_columns(256)
}

fn resolved(bench: &mut Bench<'_>, entry: TypeAsked, outcome: Outcome) -> anyhow::Result<()> {
    let mut out = [0; 1];
    let told = bench.resolve(&[entry], &mut out);
    must("a resolve on a full book", told, outcome)
}

fn descriptors(rt: &HostRuntime, memory: &mut Memory) -> anyhow::Result<()> {
    let mut bench = memory.bench(FULL)?;
    fill_up(rt.alloc(), &mut bench)?;
    let full = refused(8, 0, Layer::Fill, 1);
    let before = bench.book.taken();
    must("one type more", bench.fill(&[oid(0), oid(512)]), full)?;
    resolved(&mut bench, TypeAsked::Name(number(512)), full)?;
    must("taken", bench.book.taken(), before)?;
    must(
        "what is described",
        bench.fill(&[oid(0), oid(511), 23]),
        Outcome::Accepted(0, 0),
    )?;
    must(
        "what has no row",
        bench.fill(&[oid(700)]),
        Outcome::Accepted(1, 0),
    )?;
    resolved(
        &mut bench,
        TypeAsked::Name(number(511)),
        Outcome::Accepted(0, 0),
    )?;
    resolved(
        &mut bench,
        TypeAsked::Name(number(900)),
        Outcome::Accepted(1, 0),
    )?;
    must("names", bench.book.taken().names, 513)?;
    let all = Some(Answers {
        settled: true,
        known: true,
    });
    bind_whole(
        rt.alloc(),
        &mut bench,
        true,
        true,
        Outcome::Accepted(0, 1),
        all,
    )?;
    must("columns", bench.book.taken().columns, 256)?;
    println!(rt;
        "a book with 512 descriptors: one more is refused 8, names and columns are taken"
    )?;
    Ok(())
}

fn names(rt: &HostRuntime, memory: &mut Memory) -> anyhow::Result<()> {
    let list = oids(rt.alloc(), 0, 256)?;
    let mut bench = memory.bench(Sizes { names: 256, ..FULL })?;
    bench.add_simple(0, 256)?;
    bench.add_name(900, 0)?;
    bench.add_columns(256)?;
    must(
        "a fill of 256",
        bench.fill(list.as_slice()),
        Outcome::Accepted(1, 0),
    )?;
    let full = refused(8, 2, Layer::Fill, 1);
    resolved(&mut bench, TypeAsked::Name(number(900)), full)?;
    resolved(
        &mut bench,
        TypeAsked::Name(number(0)),
        Outcome::Accepted(0, 0),
    )?;
    resolved(
        &mut bench,
        TypeAsked::ArrayOf(number(0)),
        refused(10, 0, Layer::Call, 1),
    )?;
    let all = Some(Answers {
        settled: true,
        known: true,
    });
    bind_whole(
        rt.alloc(),
        &mut bench,
        true,
        true,
        Outcome::Accepted(0, 1),
        all,
    )?;
    bench.turn();
    bench.add_simple(256, 1)?;
    must("one type more", bench.fill(&[oid(256)]), full)?;
    must("described", bench.book.taken().descriptors, 256)?;
    println!(rt; "a book with a full table of names: one more is refused 8, columns are taken")?;
    Ok(())
}

// A bind of what a book has no room for writes nothing.
fn binds(rt: &HostRuntime, memory: &mut Memory) -> anyhow::Result<()> {
    let mut bench = memory.bench(Sizes {
        descriptors: 255,
        ..FULL
    })?;
    bench.add_simple(0, 256)?;
    bench.add_columns(256)?;
    let full = refused(8, 0, Layer::Fill, 1);
    bind_whole(rt.alloc(), &mut bench, true, true, full, None)?;
    must("taken", bench.book.taken(), Sizes::NONE)?;
    println!(rt; "a bind of 256 and 256 on a book of 255 descriptors: refused 8, nothing is kept")?;
    Ok(())
}

pub fn cases(rt: &HostRuntime, memory: &mut Memory) -> anyhow::Result<()> {
    descriptors(rt, memory)?;
    names(rt, memory)?;
    binds(rt, memory)
}
