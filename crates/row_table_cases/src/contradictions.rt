// What contradicts what is held, and what stands beside it.
use crate::bench::Bench;
use crate::offer::{Change, Offer, Text, column, name, row};
use crate::outcome::Outcome::{Accepted, Refused};

// A row of OID 1 that differs from the one that is held, in each of its parts.
const CHANGES: [Change; 15] = [
    Change::Pretty(Text::Number(9)),
    Change::Pretty(Text::Number(500)),
    Change::Pretty(Text::Number(2)),
    Change::TypType(b'c'),
    Change::TypCategory(b'C'),
    Change::TypElem(1),
    Change::TypBaseType(1),
    Change::RngSubtype(1),
    Change::TypArray(1),
    Change::Label(Text::Number(1)),
    Change::AttributeName(Text::Number(1)),
    Change::AttributeOid(2),
    Change::Parts(0, 1),
    Change::Parts(1, 0),
    Change::Parts(2, 1),
];

pub fn rows(rt: &HostRuntime, bench: &mut Bench) -> anyhow::Result<()> {
    println!(rt; "rows 1 and 2 are held, and name 0500 to 1")?;
    let held = [row(1), row(2), name(500, 1)];
    for change in CHANGES {
        bench.run(rt, &held, &[(Offer::Row(1, change), Refused(12, 1))])?;
    }
    let cases = [
        (row(1), Accepted),
        (row(2), Accepted),
        (Offer::Row(1, Change::Parts(65, 0)), Refused(11, 1)),
        (
            Offer::Row(3, Change::Pretty(Text::Number(1))),
            Refused(12, 3),
        ),
        (
            Offer::Row(3, Change::Pretty(Text::Number(500))),
            Refused(12, 3),
        ),
        (row(3), Accepted),
    ];
    bench.run(rt, &held, &cases)
}

pub fn names(rt: &HostRuntime, bench: &mut Bench) -> anyhow::Result<()> {
    println!(rt; "rows 1 and 2 are held, and name 0500 to 1")?;
    let held = [row(1), row(2), name(500, 1)];
    let cases = [
        (name(500, 1), Accepted),
        (name(1, 1), Accepted),
        (name(500, 2), Refused(12, 2)),
        (name(1, 2), Refused(12, 2)),
        (name(500, 3), Refused(12, 3)),
        (name(501, 3), Refused(12, 3)),
        (name(501, 0), Refused(12, 0)),
        (Offer::Name(Text::Bytes(0, 129), 3), Refused(11, 3)),
        (name(501, 2), Accepted),
        (name(502, 1), Accepted),
        (row(3), Accepted),
        (name(503, 3), Accepted),
        (name(501, 3), Refused(12, 3)),
    ];
    bench.run(rt, &held, &cases)
}

pub fn columns(rt: &HostRuntime, bench: &mut Bench) -> anyhow::Result<()> {
    println!(rt; "column 1 of 7 is held, table 0600, name 0700")?;
    let cases = [
        (column(7, 1, 600, 700), Accepted),
        (column(7, 1, 600, 701), Refused(12, 7)),
        (column(7, 1, 601, 700), Refused(12, 7)),
        (column(7, 1, 601, 701), Refused(12, 7)),
        (column(7, 2, 601, 700), Refused(12, 7)),
        (
            Offer::Column(7, 1, Text::Bytes(0, 129), Text::Number(700)),
            Refused(11, 7),
        ),
        (
            Offer::Column(7, 1, Text::Number(600), Text::Bytes(0, 64)),
            Refused(11, 7),
        ),
        (column(7, 2, 600, 701), Accepted),
        (column(7, 0, 600, 700), Accepted),
        (column(7, -32768, 600, 700), Accepted),
        (column(7, 32767, 600, 700), Accepted),
        (column(8, 1, 600, 701), Accepted),
        (column(8, 2, 601, 700), Refused(12, 8)),
        (column(9, 1, 601, 701), Accepted),
        (column(0, 1, 602, 700), Accepted),
    ];
    bench.run(rt, &[column(7, 1, 600, 700)], &cases)
}
