// What breaks a limit, and what just does not.
use crate::bench::Bench;
use crate::offer::{Change, Offer, Text};
use crate::outcome::Outcome;

// Starts and lengths, and whether the span lies in the host's text of 4,096 bytes.
const SPANS: [(u32, u32, bool); 19] = [
    (0, 0, true),
    (0, 1, true),
    (0, 63, true),
    (0, 64, true),
    (0, 126, true),
    (0, 127, true),
    (0, 128, true),
    (0, 129, true),
    (4033, 63, true),
    (4034, 63, false),
    (4095, 1, true),
    (4096, 0, true),
    (4096, 1, false),
    (0, 4294967295, false),
    (1, 4294967295, false),
    (4294967294, 1, false),
    (4294967295, 0, false),
    (4294967295, 1, false),
    (4294967295, 4294967295, false),
];

// An offer to a table that holds the row 1.
fn run_one(
    rt: &HostRuntime,
    bench: &mut Bench,
    offer: Offer,
    fits: bool,
    place: u32,
) -> anyhow::Result<()> {
    let expected = if fits {
        Outcome::Accepted
    } else {
        Outcome::Refused(11, place)
    };
    bench.run(rt, &[Offer::Row(1, Change::Nothing)], &[(offer, expected)])
}

// Each span in each place of a text.
pub fn texts(rt: &HostRuntime, bench: &mut Bench) -> anyhow::Result<()> {
    println!(rt; "row 1 is held")?;
    for (start, length, inside) in SPANS {
        let text = Text::Bytes(start, length);
        let long = inside && (1..=128).contains(&length);
        let short = inside && (1..=63).contains(&length);
        let cases = [
            (Offer::Row(9, Change::Pretty(text)), long, 9),
            (Offer::Row(9, Change::Label(text)), short, 9),
            (Offer::Row(9, Change::AttributeName(text)), short, 9),
            (Offer::Name(text, 1), long, 1),
            (Offer::Column(7, 1, text, Text::Number(0)), long, 7),
            (Offer::Column(7, 1, Text::Number(0), text), short, 7),
        ];
        for (offer, fits, place) in cases {
            run_one(rt, bench, offer, fits, place)?;
        }
    }
    Ok(())
}

// Rows at the limits of their OIDs, links and parts.
pub fn rows(rt: &HostRuntime, bench: &mut Bench) -> anyhow::Result<()> {
    let cases = [
        (Change::Oid(1000), true, 1000),
        (Change::Oid(4294967295), true, 4294967295),
        (Change::Oid(0), false, 0),
        (Change::TypElem(1), true, 9),
        (Change::TypElem(0), false, 9),
        (Change::TypBaseType(1), true, 9),
        (Change::TypBaseType(0), false, 9),
        (Change::RngSubtype(1), true, 9),
        (Change::RngSubtype(0), false, 9),
        (Change::TypArray(1), true, 9),
        (Change::TypArray(0), false, 9),
        (Change::AttributeOid(4294967295), true, 9),
        (Change::AttributeOid(0), false, 9),
        (Change::Parts(0, 0), true, 9),
        (Change::Parts(64, 0), true, 9),
        (Change::Parts(65, 0), false, 9),
        (Change::Parts(0, 64), true, 9),
        (Change::Parts(0, 65), false, 9),
        (Change::Parts(64, 64), true, 9),
        (Change::Parts(65, 64), false, 9),
        (Change::Parts(64, 65), false, 9),
    ];
    for (change, fits, place) in cases {
        run_one(rt, bench, Offer::Row(9, change), fits, place)?;
    }
    Ok(())
}
