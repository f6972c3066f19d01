// Binds of 256 parameters and of 256 fields, whose columns are all of one relation.
use crate::bench::{
    Bench, Memory, NO_COLUMN, NO_TYPE, RELATION, TABLE, UNWRITTEN, attribute, number, oid, oids,
};
use crate::outcome::{Outcome, must, refused};
use anyhow::{Context, ensure};
use binding::writing::{BoundColumn, BoundType, Origin};
use book::sizes::Sizes;
use book::tables::Book;
use catalog::faults::Layer;
use heap::books::FULL;
use keys::span::Span;
use requests::asked::{FieldAsked, name_in};
use requests::ordinals::ColumnNames;
use std::alloc::{AllocError, Global};
use type_info::oid::{Oid, Ordinal};

// The type of the field at a place: the parameters' types from the last on.
fn field_type(place: u32) -> Oid {
    Oid(oid(255u32.saturating_sub(place)))
}

// Named by the first so many numbers, over and over.
pub fn fields(alloc: Global, count: u32, names: u32) -> Result<Vec<FieldAsked>, AllocError> {
    let mut list = Vec::new(alloc);
    for i in 0..count {
        list.push(FieldAsked {
            name: number(i.checked_rem(names).unwrap_or(0)),
            oid: field_type(i),
            relation: Some(RELATION),
            attribute: Some(attribute(i)),
        })?;
    }
    Ok(list)
}

// What the answers have to say: whether the types are settled, and whether the columns are known.
#[derive(Clone, Copy)]
pub struct Answers {
    pub settled: bool,
    pub known: bool,
}

// The OID, and whether it has a kind, which is that of this OID.
fn answered(book: &Book<'_>, typed: BoundType) -> (Oid, bool) {
    match typed {
        BoundType::Settled(oid, settled) => (oid, book.oid(settled) == Some(oid)),
        BoundType::Declared(oid) => (oid, false),
    }
}

fn is_origin(text: &[u8], origin: Origin, place: u32, known: bool) -> bool {
    match origin {
        Origin::Expression => false,
        Origin::Unknown => !known,
        Origin::Table(column) => {
            known
                && column.table.get() == name_in(text, number(TABLE))
                && column.name.get() == name_in(text, number(place.wrapping_add(500)))
        }
    }
}

fn check_types(bench: &Bench<'_>, types: &[BoundType], wanted: Answers) -> anyhow::Result<()> {
    let mut place = 0u32;
    for typed in types {
        let must_be = if place < 256 {
            (Oid(oid(place)), wanted.settled)
        } else {
            (Oid(UNWRITTEN), false)
        };
        must("a type", answered(&bench.book, *typed), must_be)?;
        place = place.saturating_add(1);
    }
    must("types", place, 260)
}

fn check_column(
    bench: &Bench<'_>,
    column: &BoundColumn,
    place: u32,
    wanted: Answers,
) -> anyhow::Result<()> {
    must("its name", column.name, number(place))?;
    must("its ordinal", u32::from(column.ordinal.0), place)?;
    must(
        "its type",
        answered(&bench.book, column.typed),
        (field_type(place), wanted.settled),
    )?;
    must("its relation", column.relation, Some(RELATION))?;
    must("its attribute", column.attribute, Some(attribute(place)))?;
    ensure!(
        is_origin(bench.text, column.origin, place, wanted.known),
        "the origin of column {place}"
    );
    Ok(())
}

fn check_unwritten(bench: &Bench<'_>, column: &BoundColumn) -> anyhow::Result<()> {
    must("an unwritten name", column.name.length, 0)?;
    must(
        "an unwritten type",
        answered(&bench.book, column.typed),
        (Oid(UNWRITTEN), false),
    )
}

fn check_columns(
    bench: &Bench<'_>,
    columns: &[BoundColumn],
    wanted: Answers,
) -> anyhow::Result<()> {
    let mut place = 0u32;
    for column in columns {
        if place < 256 {
            check_column(bench, column, place, wanted)?;
        } else {
            check_unwritten(bench, column)?;
        }
        place = place.saturating_add(1);
    }
    must("columns", place, 260)
}

// A bind of 256 and 256 over buffers of 260 slots, and what lies in these then: where it is refused, what lay there before.
pub fn bind_whole(
    alloc: Global,
    bench: &mut Bench<'_>,
    queries: bool,
    origins: bool,
    outcome: Outcome,
    wanted: Option<Answers>,
) -> anyhow::Result<()> {
    let parameters = oids(alloc, 0, 256)?;
    let fields = fields(alloc, 256, 256)?;
    let mut types = vec![in alloc; NO_TYPE; 260]?;
    let mut columns = vec![in alloc; NO_COLUMN; 260]?;
    let told = bench.bind(
        parameters.as_slice(),
        fields.as_slice(),
        queries,
        origins,
        types.as_mut_slice(),
        columns.as_mut_slice(),
    );
    must("a bind of 256 and 256", told, outcome)?;
    match wanted {
        Some(wanted) => {
            check_types(bench, types.as_slice(), wanted)?;
            check_columns(bench, columns.as_slice(), wanted)
        }
        None => {
            for typed in &types {
                must(
                    "a type",
                    answered(&bench.book, *typed),
                    (Oid(UNWRITTEN), false),
                )?;
            }
            for column in &columns {
                check_unwritten(bench, column)?;
            }
            Ok(())
        }
    }
}

fn new_bench(memory: &mut Memory, sizes: Sizes) -> anyhow::Result<Bench<'_>> {
    let mut bench = memory.bench(sizes)?;
    bench.add_simple(0, 256)?;
    bench.add_columns(256)?;
    Ok(bench)
}

// Types and columns of an empty book, and then of one that knows all of them.
fn whole(rt: &HostRuntime, memory: &mut Memory) -> anyhow::Result<()> {
    let alloc = rt.alloc();
    let mut bench = new_bench(memory, FULL)?;
    let all = Some(Answers {
        settled: true,
        known: true,
    });
    bind_whole(alloc, &mut bench, true, true, Outcome::Accepted(1, 1), all)?;
    must("described", bench.book.taken().descriptors, 256)?;
    must("columns", bench.book.taken().columns, 256)?;
    must("relations", bench.book.taken().relations, 1)?;
    must("text", bench.book.taken().text, 3076)?;
    must("allowance", bench.rows.allowance(), 62)?;
    println!(rt; "a bind of 256 and 256: counts 1 and 1")?;
    bench.rows.set_allowance(0);
    bind_whole(alloc, &mut bench, true, true, Outcome::Accepted(0, 0), all)?;
    bind_whole(
        alloc,
        &mut bench,
        false,
        false,
        Outcome::Accepted(0, 0),
        all,
    )?;
    println!(rt; "once more, with queries and without, at allowance 0: counts 0 and 0")?;
    Ok(())
}

fn without_origins(rt: &HostRuntime, memory: &mut Memory) -> anyhow::Result<()> {
    let mut bench = new_bench(memory, FULL)?;
    let types = Some(Answers {
        settled: true,
        known: false,
    });
    bind_whole(
        rt.alloc(),
        &mut bench,
        true,
        false,
        Outcome::Accepted(1, 0),
        types,
    )?;
    must("columns", bench.book.taken().columns, 0)?;
    must("allowance", bench.rows.allowance(), 63)?;
    println!(rt; "a bind of 256 and 256 without origins: counts 1 and 0")?;
    Ok(())
}

fn without_queries(rt: &HostRuntime, memory: &mut Memory, origins: bool) -> anyhow::Result<()> {
    let mut bench = new_bench(memory, FULL)?;
    let nothing = Some(Answers {
        settled: false,
        known: false,
    });
    bind_whole(
        rt.alloc(),
        &mut bench,
        false,
        origins,
        Outcome::Accepted(0, 0),
        nothing,
    )?;
    must("taken", bench.book.taken(), Sizes::NONE)?;
    must("allowance", bench.rows.allowance(), 64)?;
    println!(rt; "a bind of 256 and 256 without queries: counts 0 and 0")?;
    Ok(())
}

// The types take 2048 bytes, the columns 1024 and their table 4.
fn without_room(
    rt: &HostRuntime,
    memory: &mut Memory,
    sizes: Sizes,
    place: u32,
) -> anyhow::Result<()> {
    let mut bench = new_bench(memory, sizes)?;
    let wanted = refused(8, place, Layer::Columns, 2);
    bind_whole(rt.alloc(), &mut bench, true, true, wanted, None)?;
    let kept = Sizes {
        descriptors: 256,
        names: 256,
        text: 2048,
        ..Sizes::NONE
    };
    must("taken", bench.book.taken(), kept)?;
    must("allowance", bench.rows.allowance(), 62)?;
    println!(rt;
        "a bind of 256 and 256 whose columns lack room in table {place}: refused 8, the types are kept"
    )?;
    Ok(())
}

fn with_room(rt: &HostRuntime, memory: &mut Memory) -> anyhow::Result<()> {
    let exactly = Sizes {
        descriptors: 256,
        names: 256,
        text: 3076,
        columns: 256,
        relations: 1,
        ..Sizes::NONE
    };
    let mut bench = new_bench(memory, exactly)?;
    let all = Some(Answers {
        settled: true,
        known: true,
    });
    bind_whole(
        rt.alloc(),
        &mut bench,
        true,
        true,
        Outcome::Accepted(1, 1),
        all,
    )?;
    must("taken", bench.book.taken(), exactly)?;
    println!(rt; "a bind of 256 and 256 that just fits: counts 1 and 1")?;
    Ok(())
}

fn without_allowance(rt: &HostRuntime, memory: &mut Memory) -> anyhow::Result<()> {
    let mut bench = new_bench(memory, FULL)?;
    bench.rows.set_allowance(1);
    let wanted = refused(5, 2, Layer::Columns, 1);
    bind_whole(rt.alloc(), &mut bench, true, true, wanted, None)?;
    must("described", bench.book.taken().descriptors, 256)?;
    must("columns", bench.book.taken().columns, 0)?;
    must("allowance", bench.rows.allowance(), 0)?;
    println!(rt; "a bind of 256 and 256 at allowance 1: refused 5, the types are kept")?;
    Ok(())
}

// What the columns of a bind answer for names, each of which two fields have.
fn check_ordinals(alloc: Global, text: &[u8], columns: &[BoundColumn]) -> anyhow::Result<()> {
    let mut names = Vec::new(alloc);
    for column in columns {
        names.push(column.name)?;
    }
    let mut few = vec![in alloc; None; 255]?;
    ensure!(
        ColumnNames::new(text, names.as_slice(), few.as_mut_slice()).is_none(),
        "255 slots are enough"
    );
    let mut slots = vec![in alloc; None; 256]?;
    let index = ColumnNames::new(text, names.as_slice(), slots.as_mut_slice()).context(
        "256 slots are few",
    )?;
    must("the last", index.ordinal(number(127)), Some(Ordinal(255)))?;
    must("the first", index.ordinal(number(0)), Some(Ordinal(128)))?;
    must("no field's", index.ordinal(number(128)), None)?;
    must(
        "outside",
        index.ordinal(Span {
            start: 4096,
            length: 1,
        }),
        None,
    )
}

fn ordinals(rt: &HostRuntime, memory: &mut Memory) -> anyhow::Result<()> {
    let alloc = rt.alloc();
    let fields = fields(alloc, 256, 128)?;
    let mut columns = vec![in alloc; NO_COLUMN; 256]?;
    let mut bench = new_bench(memory, FULL)?;
    let told = bench.bind(
        &[],
        fields.as_slice(),
        true,
        true,
        &mut [],
        columns.as_mut_slice(),
    );
    must("a bind of no parameter", told, Outcome::Accepted(1, 1))?;
    check_ordinals(alloc, bench.text, columns.as_slice())?;
    println!(rt; "128 names of 256 columns, twice each: the ordinal is the last")?;
    Ok(())
}

pub fn cases(rt: &HostRuntime, memory: &mut Memory) -> anyhow::Result<()> {
    whole(rt, memory)?;
    without_origins(rt, memory)?;
    without_queries(rt, memory, true)?;
    without_queries(rt, memory, false)?;
    without_room(rt, memory, Sizes { text: 3075, ..FULL }, 4)?;
    without_room(
        rt,
        memory,
        Sizes {
            columns: 255,
            ..FULL
        },
        5,
    )?;
    without_room(
        rt,
        memory,
        Sizes {
            relations: 0,
            ..FULL
        },
        6,
    )?;
    with_room(rt, memory)?;
    without_allowance(rt, memory)?;
    ordinals(rt, memory)
}
