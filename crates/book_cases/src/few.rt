// Books to which few slots of one table are lent, filled up to them.
use crate::bench::Bench;
use crate::lent::{MANY, Slots};
use crate::offer::{EMPTY, Offer, Sort, column, composed, labelled, long, name, number, simple};
use crate::outcome::Outcome::{Added, Full};
use book::sizes::BookTable::{Arrays, Columns, Descriptors, Names, Parts, Relations, Text};

fn descriptors(rt: &HostRuntime, bench: &mut Bench) -> anyhow::Result<()> {
    let cases = [
        (simple(50001), Added),
        (labelled(50002, 2), Added),
        (composed(50003, 1, &[23]), Added),
        (simple(50004), Full(Descriptors)),
        (labelled(50004, 2), Full(Descriptors)),
        (simple(50001), Full(Descriptors)),
        (name(500, 50001), Added),
        (Offer::Array(50001, 50004), Added),
        (column(7, 1, 600, 700), Added),
    ];
    bench.run(rt, MANY.with(Descriptors, 3), &[], &cases)?;
    bench.run(rt, Slots { index: 3, ..MANY }, &[], &cases)
}

fn parts(rt: &HostRuntime, bench: &mut Bench) -> anyhow::Result<()> {
    let cases = [
        (labelled(50001, 3), Added),
        (labelled(50002, 3), Full(Parts)),
        (composed(50002, 3, &[23]), Full(Parts)),
        (composed(50002, 2, &[23, 50001]), Added),
        (labelled(50003, 1), Full(Parts)),
        (composed(50003, 1, &[23]), Full(Parts)),
        (labelled(50003, 0), Added),
        (composed(50004, 0, &[]), Added),
        (simple(50005), Added),
        (name(500, 50001), Added),
        (Offer::Array(50001, 50004), Added),
        (column(7, 1, 600, 700), Added),
    ];
    bench.run(rt, MANY.with(Parts, 5), &[], &cases)?;
    let cases = [
        (labelled(50001, 6), Full(Parts)),
        (labelled(50001, 5), Added),
        (labelled(50002, 1), Full(Parts)),
    ];
    bench.run(rt, MANY.with(Parts, 5), &[], &cases)
}

fn names(rt: &HostRuntime, bench: &mut Bench) -> anyhow::Result<()> {
    let cases = [
        (name(500, 23), Added),
        (name(501, 23), Added),
        (name(502, 50001), Added),
        (Offer::Name(EMPTY, 25), Added),
        (name(503, 23), Full(Names)),
        (name(500, 23), Full(Names)),
        (labelled(50001, 2), Added),
        (Offer::Array(50001, 50004), Added),
        (column(7, 1, 600, 700), Added),
    ];
    bench.run(rt, MANY.with(Names, 4), &[], &cases)
}

fn arrays(rt: &HostRuntime, bench: &mut Bench) -> anyhow::Result<()> {
    let cases = [
        (Offer::Array(50001, 50002), Added),
        (Offer::Array(50002, 50003), Added),
        (Offer::Array(50003, 50004), Full(Arrays)),
        (Offer::Array(50001, 50005), Full(Arrays)),
        (labelled(50001, 2), Added),
        (name(500, 50001), Added),
        (column(7, 1, 600, 700), Added),
    ];
    bench.run(rt, MANY.with(Arrays, 2), &[], &cases)
}

fn text(rt: &HostRuntime, bench: &mut Bench) -> anyhow::Result<()> {
    let cases = [
        (simple(50001), Added),
        (labelled(50002, 2), Added),
        (name(500, 50001), Added),
        (column(7, 1, 600, 700), Added),
        (column(7, 2, 600, 701), Added),
        (labelled(50003, 2), Full(Text)),
        (composed(50003, 2, &[23]), Full(Text)),
        (Offer::Row(50003, long(9, 9), Sort::Simple), Full(Text)),
        (Offer::Name(long(501, 9), 50001), Full(Text)),
        (Offer::Column(7, 3, number(600), long(702, 9)), Full(Text)),
        (Offer::Column(8, 1, number(600), long(702, 5)), Full(Text)),
        (Offer::Name(long(501, 8), 50001), Added),
        (Offer::Name(long(502, 1), 50001), Full(Text)),
        (Offer::Row(50003, long(9, 1), Sort::Simple), Full(Text)),
        (Offer::Column(7, 3, number(600), long(702, 1)), Full(Text)),
        (Offer::Column(8, 1, long(600, 1), EMPTY), Full(Text)),
        (Offer::Name(EMPTY, 50001), Added),
        (Offer::Array(50001, 50004), Added),
        (Offer::Column(7, 3, number(600), EMPTY), Added),
        (Offer::Column(8, 1, EMPTY, EMPTY), Added),
    ];
    bench.run(rt, MANY.with(Text, 40), &[], &cases)
}

fn columns(rt: &HostRuntime, bench: &mut Bench) -> anyhow::Result<()> {
    let cases = [
        (column(7, 1, 600, 700), Added),
        (column(7, 2, 600, 701), Added),
        (column(8, 1, 601, 700), Added),
        (column(8, 2, 601, 701), Full(Columns)),
        (column(9, 1, 602, 700), Full(Columns)),
        (column(7, 1, 600, 701), Full(Columns)),
        (labelled(50001, 2), Added),
        (name(500, 50001), Added),
        (Offer::Array(50001, 50004), Added),
    ];
    bench.run(rt, MANY.with(Columns, 3), &[], &cases)
}

fn relations(rt: &HostRuntime, bench: &mut Bench) -> anyhow::Result<()> {
    let cases = [
        (column(7, 1, 600, 700), Added),
        (column(8, 1, 601, 700), Added),
        (column(9, 1, 602, 700), Full(Relations)),
        (column(9, 1, 600, 700), Full(Relations)),
        (column(7, 2, 600, 701), Added),
        (column(8, -1, 601, 701), Added),
        (labelled(50001, 2), Added),
        (name(500, 50001), Added),
        (Offer::Array(50001, 50004), Added),
    ];
    bench.run(rt, MANY.with(Relations, 2), &[], &cases)
}

// Two tables are full, and the first of them is told.
fn two(rt: &HostRuntime, bench: &mut Bench) -> anyhow::Result<()> {
    let held = [
        labelled(50001, 1),
        name(500, 50001),
        Offer::Array(50001, 50002),
        column(7, 1, 600, 700),
    ];
    let pairs = [
        (Descriptors, 1, Parts, 1, labelled(50002, 1)),
        (Descriptors, 1, Text, 20, simple(50002)),
        (Parts, 1, Text, 20, labelled(50002, 1)),
        (Names, 1, Text, 20, name(501, 23)),
        (Text, 20, Columns, 1, column(7, 2, 600, 701)),
        (Text, 20, Relations, 1, column(8, 1, 600, 700)),
        (Columns, 1, Relations, 1, column(8, 1, 600, 700)),
    ];
    for (first, many, second, as_many, offer) in pairs {
        let slots = MANY.with(first, many).with(second, as_many);
        bench.run(rt, slots, &held, &[(offer, Full(first))])?;
    }
    Ok(())
}

pub fn all(rt: &HostRuntime, bench: &mut Bench) -> anyhow::Result<()> {
    descriptors(rt, bench)?;
    parts(rt, bench)?;
    names(rt, bench)?;
    arrays(rt, bench)?;
    text(rt, bench)?;
    columns(rt, bench)?;
    relations(rt, bench)?;
    two(rt, bench)?;
    bench.tally.close(rt, "tables of few slots")?;
    Ok(())
}
