// Books filled up to their limits.
use crate::bench::Bench;
use crate::lent::{ENOUGH, MANY};
use crate::offer::{EMPTY, Offer, Sort, column, composed, labelled, long, name, numbers, simple};
use crate::outcome::Outcome;
use crate::outcome::Outcome::{Added, Full, Refused};
use book::sizes::BookTable::{Arrays, Columns, Descriptors, Names, Parts, Relations, Text};
use std::alloc::{AllocError, Global};

// Over more slots than a book can use, and over as many.
fn run(
    rt: &HostRuntime,
    bench: &mut Bench,
    held: &[Offer],
    cases: &[(Offer, Outcome)],
) -> anyhow::Result<()> {
    bench.run(rt, MANY, held, cases)?;
    bench.run(rt, ENOUGH, held, cases)
}

fn descriptors(rt: &HostRuntime, bench: &mut Bench) -> anyhow::Result<()> {
    let held: Vec<Offer> = (50001..50512u32).map(simple).collect(rt.alloc())?;
    let cases = [
        (labelled(60000, 2), Added),
        (simple(60001), Full(Descriptors)),
        (labelled(60001, 2), Full(Descriptors)),
        (simple(50001), Full(Descriptors)),
        (name(500, 60001), Added),
        (Offer::Array(60000, 60001), Added),
        (column(7, 1, 600, 700), Added),
    ];
    run(rt, bench, held.as_slice(), &cases)
}

fn parts(rt: &HostRuntime, bench: &mut Bench) -> anyhow::Result<()> {
    let held: Vec<Offer> = (1..64u32)
        .map(|n| labelled(50000 + n, 64))
        .chain((1..2u32).map(|n| composed(60000 + n, 63, &[23, 50001])))
        .collect(rt.alloc())?;
    let cases = [
        (labelled(60002, 2), Full(Parts)),
        (composed(60002, 64, &[23]), Full(Parts)),
        (labelled(60002, 1), Added),
        (labelled(60003, 1), Full(Parts)),
        (composed(60003, 1, &[23]), Full(Parts)),
        (labelled(60003, 0), Added),
        (simple(60004), Added),
        (name(500, 60001), Added),
        (Offer::Array(60001, 60002), Added),
        (column(7, 1, 600, 700), Added),
    ];
    run(rt, bench, held.as_slice(), &cases)
}

fn names(rt: &HostRuntime, bench: &mut Bench) -> anyhow::Result<()> {
    let held: Vec<Offer> = (0..1023u32).map(|n| name(n, n)).collect(rt.alloc())?;
    let cases = [
        (name(1100, 23), Added),
        (name(1101, 23), Full(Names)),
        (Offer::Name(EMPTY, 23), Full(Names)),
        (name(5, 23), Full(Names)),
        (labelled(50001, 2), Added),
        (Offer::Array(50001, 50002), Added),
        (column(7, 1, 600, 700), Added),
    ];
    run(rt, bench, held.as_slice(), &cases)
}

fn arrays(rt: &HostRuntime, bench: &mut Bench) -> anyhow::Result<()> {
    let held: Vec<Offer> = (0..1023u32)
        .map(|n| Offer::Array(n, n + 1))
        .collect(rt.alloc())?;
    let cases = [
        (Offer::Array(4294967295, 0), Added),
        (Offer::Array(2000, 2001), Full(Arrays)),
        (Offer::Array(5, 23), Full(Arrays)),
        (labelled(50001, 2), Added),
        (name(500, 50001), Added),
        (column(7, 1, 600, 700), Added),
    ];
    run(rt, bench, held.as_slice(), &cases)
}

// 65,533 bytes of text are held.
fn text(rt: &HostRuntime, bench: &mut Bench) -> anyhow::Result<()> {
    let held: Vec<Offer> = (0..511u32)
        .map(|n| Offer::Name(long(n, 128), n))
        .chain((511..512u32).map(|n| Offer::Name(long(n, 125), n)))
        .collect(rt.alloc())?;
    let cases = [
        (simple(50001), Full(Text)),
        (name(600, 23), Full(Text)),
        (column(7, 1, 600, 700), Full(Text)),
        (Offer::Column(7, 1, long(600, 2), long(700, 2)), Full(Text)),
        (
            Offer::Row(50001, long(1, 1), Sort::Enum(numbers(0, 1))),
            Full(Text),
        ),
        (Offer::Row(50001, long(1, 1), Sort::Simple), Added),
        (Offer::Column(7, 1, long(600, 1), long(700, 1)), Added),
        (Offer::Column(7, 2, long(600, 1), long(700, 1)), Full(Text)),
        (Offer::Row(50002, long(1, 1), Sort::Simple), Full(Text)),
        (Offer::Name(long(601, 1), 23), Full(Text)),
        (Offer::Name(EMPTY, 23), Added),
        (Offer::Column(7, 2, long(600, 1), EMPTY), Added),
        (Offer::Array(50001, 50002), Added),
    ];
    run(rt, bench, held.as_slice(), &cases)
}

fn columns(rt: &HostRuntime, bench: &mut Bench) -> anyhow::Result<()> {
    let held: Vec<Offer> = (1..1024i16)
        .map(|n| column(7, n, 600, 700))
        .collect(rt.alloc())?;
    let cases = [
        (column(8, 1, 601, 700), Added),
        (column(7, 1024, 600, 700), Full(Columns)),
        (column(9, 1, 600, 700), Full(Columns)),
        (column(7, 1, 600, 701), Full(Columns)),
        (labelled(50001, 2), Added),
        (name(500, 50001), Added),
        (Offer::Array(50001, 50002), Added),
    ];
    run(rt, bench, held.as_slice(), &cases)
}

fn relations(rt: &HostRuntime, bench: &mut Bench) -> anyhow::Result<()> {
    let held: Vec<Offer> = (0..127u32)
        .map(|relation| column(relation, 1, relation, 700))
        .collect(rt.alloc())?;
    let cases = [
        (column(4294967295, 1, 600, 700), Added),
        (column(1000, 1, 600, 700), Full(Relations)),
        (column(1000, 1, 5, 700), Full(Relations)),
        (column(5, 1, 5, 700), Refused),
        (column(5, 2, 5, 700), Added),
        (labelled(50001, 2), Added),
        (name(500, 50001), Added),
        (Offer::Array(50001, 50002), Added),
    ];
    run(rt, bench, held.as_slice(), &cases)
}

// What fills all tables, to the last byte of text: names of 79 bytes for the rows, and of 4 for all else.
pub fn everything(alloc: Global) -> Result<Vec<Offer>, AllocError> {
    let enums = (1..65u32).map(|n| {
        let labels = Sort::Enum(numbers(0, 64));
        Offer::Row(50000 + n, long(n, 79), labels)
    });
    let simples = (65..513u32).map(|n| Offer::Row(50000 + n, long(n, 79), Sort::Simple));
    let names = (0..1024u32).map(|n| name(n, n));
    let arrays = (0..1024u32).map(|n| Offer::Array(n, n + 1));
    let columns = (0..1024i16).map(|n| column(n as u32 % 128, n, n as u32 % 128, 700));
    enums
        .chain(simples)
        .chain(names)
        .chain(arrays)
        .chain(columns)
        .collect(alloc)
}

fn together(rt: &HostRuntime, bench: &mut Bench) -> anyhow::Result<()> {
    let held = everything(rt.alloc())?;
    let cases = [
        (simple(60000), Full(Descriptors)),
        (labelled(60000, 1), Full(Descriptors)),
        (name(1100, 23), Full(Names)),
        (Offer::Name(EMPTY, 23), Full(Names)),
        (Offer::Array(60000, 60001), Full(Arrays)),
        (column(7, 2000, 7, 700), Full(Text)),
        (Offer::Column(7, 2000, EMPTY, EMPTY), Full(Columns)),
        (Offer::Column(1000, 1, EMPTY, EMPTY), Full(Columns)),
    ];
    run(rt, bench, held.as_slice(), &cases)
}

pub fn all(rt: &HostRuntime, bench: &mut Bench) -> anyhow::Result<()> {
    descriptors(rt, bench)?;
    parts(rt, bench)?;
    names(rt, bench)?;
    arrays(rt, bench)?;
    text(rt, bench)?;
    columns(rt, bench)?;
    relations(rt, bench)?;
    together(rt, bench)?;
    bench.tally.close(rt, "tables at their limits")?;
    Ok(())
}
