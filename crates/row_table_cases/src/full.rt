// The last that has room in each table, the first that has not, and what a full table still answers.
use crate::bench::Bench;
use crate::offer::{Change, Offer, Text, column, name, row};
use crate::outcome::Outcome::{Accepted, Refused};

fn parts(n: u16, labels: usize, attributes: usize) -> Offer {
    Offer::Row(n, Change::Parts(labels, attributes))
}

fn pretty(n: u16, text: Text) -> Offer {
    Offer::Row(n, Change::Pretty(text))
}

pub fn rows(rt: &HostRuntime, bench: &mut Bench) -> anyhow::Result<()> {
    println!(rt; "255 rows are held")?;
    let held: Vec<Offer> = (1..256u16).map(row).collect(rt.alloc())?;
    let cases = [
        (row(300), Accepted),
        (row(301), Refused(13, 0)),
        (row(300), Accepted),
        (row(1), Accepted),
        (parts(1, 2, 1), Refused(12, 1)),
        (pretty(301, Text::Number(1)), Refused(12, 301)),
        (pretty(301, Text::Bytes(0, 129)), Refused(11, 301)),
        (parts(301, 65, 0), Refused(11, 301)),
        (name(500, 300), Accepted),
        (pretty(301, Text::Number(500)), Refused(12, 301)),
        (name(501, 301), Refused(12, 301)),
        (column(7, 1, 600, 700), Accepted),
    ];
    bench.run(rt, held.as_slice(), &cases)
}

pub fn names(rt: &HostRuntime, bench: &mut Bench) -> anyhow::Result<()> {
    let held: Vec<Offer> = (1..2u16)
        .map(row)
        .chain((500..1010u16).map(|n| name(n, 1)))
        .collect(rt.alloc())?;
    println!(rt; "511 names are held, and the next is a name")?;
    let cases = [
        (name(400, 1), Accepted),
        (name(401, 1), Refused(13, 1)),
        (row(2), Refused(13, 1)),
        (name(400, 1), Accepted),
        (name(1, 1), Accepted),
        (row(1), Accepted),
        (name(400, 2), Refused(12, 2)),
        (name(401, 2), Refused(12, 2)),
        (pretty(2, Text::Number(400)), Refused(12, 2)),
        (pretty(2, Text::Bytes(0, 0)), Refused(11, 2)),
        (Offer::Name(Text::Bytes(0, 129), 1), Refused(11, 1)),
        (column(7, 1, 600, 700), Accepted),
    ];
    bench.run(rt, held.as_slice(), &cases)?;
    println!(rt; "511 names are held, and the next is a pretty name")?;
    let cases = [
        (row(2), Accepted),
        (row(3), Refused(13, 1)),
        (name(400, 1), Refused(13, 1)),
        (row(2), Accepted),
    ];
    bench.run(rt, held.as_slice(), &cases)
}

pub fn parts_of_rows(rt: &HostRuntime, bench: &mut Bench) -> anyhow::Result<()> {
    let held: Vec<Offer> = (1..12u16).map(|n| parts(n, 62, 31)).collect(rt.alloc())?;
    println!(rt; "1023 parts are held, and the next is a label")?;
    let cases = [
        (parts(300, 2, 0), Refused(13, 2)),
        (parts(300, 1, 1), Refused(13, 2)),
        (parts(300, 0, 2), Refused(13, 2)),
        (parts(300, 64, 64), Refused(13, 2)),
        (parts(300, 1, 0), Accepted),
        (parts(301, 1, 0), Refused(13, 2)),
        (parts(301, 0, 1), Refused(13, 2)),
        (parts(1, 62, 31), Accepted),
        (parts(1, 61, 31), Refused(12, 1)),
        (parts(1, 62, 65), Refused(11, 1)),
        (pretty(301, Text::Number(1)), Refused(12, 301)),
        (parts(301, 0, 0), Accepted),
        (name(500, 1), Accepted),
        (column(7, 1, 600, 700), Accepted),
    ];
    bench.run(rt, held.as_slice(), &cases)?;
    println!(rt; "1023 parts are held, and the next is an attribute")?;
    let cases = [
        (parts(300, 0, 1), Accepted),
        (parts(301, 0, 1), Refused(13, 2)),
        (parts(301, 1, 0), Refused(13, 2)),
    ];
    bench.run(rt, held.as_slice(), &cases)?;
    println!(rt; "896 parts are held")?;
    let held: Vec<Offer> = (1..8u16).map(|n| parts(n, 64, 64)).collect(rt.alloc())?;
    let cases = [
        (parts(300, 64, 64), Accepted),
        (parts(301, 64, 64), Refused(13, 2)),
        (parts(301, 1, 0), Refused(13, 2)),
        (parts(301, 0, 0), Accepted),
    ];
    bench.run(rt, held.as_slice(), &cases)
}

pub fn columns(rt: &HostRuntime, bench: &mut Bench) -> anyhow::Result<()> {
    println!(rt; "1023 columns of one relation are held")?;
    let held: Vec<Offer> = (1..1024i16)
        .map(|n| column(7, n, 600, 700))
        .collect(rt.alloc())?;
    let cases = [
        (column(7, 1024, 600, 700), Accepted),
        (column(7, 1025, 600, 700), Refused(13, 3)),
        (column(8, 1, 600, 700), Refused(13, 3)),
        (column(7, 1024, 600, 700), Accepted),
        (column(7, 1, 600, 701), Refused(12, 7)),
        (column(7, 1, 601, 700), Refused(12, 7)),
        (column(7, 1025, 601, 700), Refused(12, 7)),
        (
            Offer::Column(7, 1025, Text::Number(600), Text::Bytes(0, 64)),
            Refused(11, 7),
        ),
        (
            Offer::Column(7, 1025, Text::Bytes(0, 129), Text::Number(700)),
            Refused(11, 7),
        ),
        (row(1), Accepted),
        (name(500, 1), Accepted),
    ];
    bench.run(rt, held.as_slice(), &cases)?;
    println!(rt; "a column of each of 1023 relations is held")?;
    let held: Vec<Offer> = (1..1024u32)
        .map(|relation| column(relation, 1, 600, 700))
        .collect(rt.alloc())?;
    let cases = [
        (column(1024, 1, 601, 700), Accepted),
        (column(1025, 1, 600, 700), Refused(13, 3)),
        (column(1024, 2, 601, 700), Refused(13, 3)),
        (column(1024, 2, 600, 700), Refused(12, 1024)),
    ];
    bench.run(rt, held.as_slice(), &cases)
}

// The first table without room is told.
pub fn all(rt: &HostRuntime, bench: &mut Bench) -> anyhow::Result<()> {
    let held: Vec<Offer> = (1..9u16)
        .map(|n| parts(n, 64, 64))
        .chain((9..256u16).map(|n| parts(n, 0, 0)))
        .chain((500..756u16).map(|n| name(n, 1)))
        .chain((1..1025i16).map(|n| column(7, n, 600, 700)))
        .collect(rt.alloc())?;
    println!(rt;
        "255 rows, 511 names, 1024 parts and 1024 columns are held, and the next is a row"
    )?;
    let cases = [
        (row(300), Refused(13, 2)),
        (parts(300, 0, 0), Accepted),
        (row(301), Refused(13, 0)),
        (parts(301, 0, 0), Refused(13, 0)),
        (name(400, 1), Refused(13, 1)),
        (column(7, 1025, 600, 700), Refused(13, 3)),
    ];
    bench.run(rt, held.as_slice(), &cases)?;
    println!(rt;
        "255 rows, 511 names, 1024 parts and 1024 columns are held, and the next is a name"
    )?;
    let cases = [
        (name(400, 1), Accepted),
        (row(300), Refused(13, 1)),
        (parts(300, 0, 0), Refused(13, 1)),
    ];
    bench.run(rt, held.as_slice(), &cases)
}
