// Books to which no slots of a table are lent.
use crate::bench::Bench;
use crate::lent::{MANY, Slots};
use crate::offer::{EMPTY, Offer, column, labelled, name, simple};
use crate::outcome::Outcome;
use crate::outcome::Outcome::{Added, Full};
use book::sizes::BookTable::{Arrays, Columns, Descriptors, Names, Parts, Relations, Text};
use book::sizes::Sizes;

// A row, a row with a label, a name, an empty one, an array link, a column, and one of empty names, and what becomes of each.
fn run(
    rt: &HostRuntime,
    bench: &mut Bench,
    slots: Slots,
    outcomes: [Outcome; 7],
) -> anyhow::Result<()> {
    let [row, labels, names, empty_name, array, columns, empty_column] = outcomes;
    let cases = [
        (simple(50001), row),
        (labelled(50002, 1), labels),
        (name(500, 50001), names),
        (Offer::Name(EMPTY, 50002), empty_name),
        (Offer::Array(50001, 50002), array),
        (column(7, 1, 600, 700), columns),
        (Offer::Column(8, 1, EMPTY, EMPTY), empty_column),
    ];
    bench.run(rt, slots, &[], &cases)
}

pub fn all(rt: &HostRuntime, bench: &mut Bench) -> anyhow::Result<()> {
    let no_descriptor = [
        Full(Descriptors),
        Full(Descriptors),
        Added,
        Added,
        Added,
        Added,
        Added,
    ];
    let no_part = [Added, Full(Parts), Added, Added, Added, Added, Added];
    let no_name = [Added, Added, Full(Names), Full(Names), Added, Added, Added];
    let no_array = [Added, Added, Added, Added, Full(Arrays), Added, Added];
    let no_text = [
        Full(Text),
        Full(Text),
        Full(Text),
        Added,
        Added,
        Full(Text),
        Added,
    ];
    let no_column = [
        Added,
        Added,
        Added,
        Added,
        Added,
        Full(Columns),
        Full(Columns),
    ];
    let no_relation = [
        Added,
        Added,
        Added,
        Added,
        Added,
        Full(Relations),
        Full(Relations),
    ];
    let nothing = [
        Full(Descriptors),
        Full(Descriptors),
        Full(Names),
        Full(Names),
        Full(Arrays),
        Full(Text),
        Full(Columns),
    ];
    let none = Slots {
        tables: Sizes::NONE,
        index: 0,
    };
    run(rt, bench, MANY, [Added; 7])?;
    run(rt, bench, MANY.with(Descriptors, 0), no_descriptor)?;
    run(rt, bench, Slots { index: 0, ..MANY }, no_descriptor)?;
    run(rt, bench, MANY.with(Parts, 0), no_part)?;
    run(rt, bench, MANY.with(Names, 0), no_name)?;
    run(rt, bench, MANY.with(Arrays, 0), no_array)?;
    run(rt, bench, MANY.with(Text, 0), no_text)?;
    run(rt, bench, MANY.with(Columns, 0), no_column)?;
    run(rt, bench, MANY.with(Relations, 0), no_relation)?;
    run(rt, bench, none, nothing)?;
    bench.tally.close(rt, "tables without slots")?;
    Ok(())
}
