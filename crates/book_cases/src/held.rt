// Names, array links and columns that are held already, and what is not held.
use crate::bench::{Bench, fill};
use crate::lent::{MANY, Room};
use crate::offer::{EMPTY, Offer, column, long, name, number, simple};
use crate::outcome::Outcome::{Added, Refused};
use crate::trial::Trial;
use keys::span::Span;

// The number 500, between the numbers 50 and 51.
const BETWEEN: Span = Span {
    start: 201,
    length: 4,
};

fn names(rt: &HostRuntime, bench: &mut Bench) -> anyhow::Result<()> {
    let cases = [
        (name(500, 50001), Added),
        (name(500, 50002), Refused),
        (name(500, 50001), Refused),
        (Offer::Name(BETWEEN, 50002), Refused),
        (name(501, 50001), Added),
        (Offer::Name(long(500, 3), 50002), Added),
        (Offer::Name(long(500, 8), 50003), Added),
        (Offer::Name(EMPTY, 50004), Added),
        (Offer::Name(EMPTY, 50005), Refused),
        (name(501, 50006), Refused),
    ];
    bench.run(rt, MANY, &[], &cases)
}

fn arrays(rt: &HostRuntime, bench: &mut Bench) -> anyhow::Result<()> {
    let cases = [
        (Offer::Array(50001, 50002), Added),
        (Offer::Array(50001, 50003), Refused),
        (Offer::Array(50001, 50002), Refused),
        (Offer::Array(50002, 50002), Added),
        (Offer::Array(23, 50002), Added),
        (Offer::Array(23, 1007), Refused),
    ];
    bench.run(rt, MANY, &[], &cases)
}

fn columns(rt: &HostRuntime, bench: &mut Bench) -> anyhow::Result<()> {
    let cases = [
        (column(7, 1, 600, 700), Added),
        (column(7, 1, 600, 701), Refused),
        (column(7, 1, 601, 700), Refused),
        (column(7, 2, 600, 701), Added),
        (column(7, 3, 601, 702), Added),
        (column(8, 1, 600, 700), Added),
        (column(9, 1, 602, 600), Added),
        (column(7, -1, 600, 703), Added),
        (column(7, 0, 600, 704), Added),
        (column(7, -2, 600, 705), Added),
        (column(7, -32768, 600, 706), Added),
        (column(7, 32767, 600, 707), Added),
        (column(7, -1, 600, 708), Refused),
        (Offer::Column(7, 4, number(600), EMPTY), Added),
        (Offer::Column(10, 1, EMPTY, number(700)), Added),
        (Offer::Column(10, 2, number(603), EMPTY), Added),
    ];
    bench.run(rt, MANY, &[], &cases)
}

fn unheld(rt: &HostRuntime, bench: &mut Bench) -> anyhow::Result<()> {
    let held = [
        simple(50001),
        name(500, 50002),
        Offer::Array(50003, 50004),
        column(7, 1, 600, 700),
    ];
    let others = [
        simple(0),
        simple(50002),
        simple(50003),
        simple(50004),
        simple(7),
        simple(4294967295),
        name(1, 0),
        name(501, 0),
        name(600, 0),
        name(700, 0),
        Offer::Name(EMPTY, 0),
        Offer::Name(long(500, 3), 0),
        Offer::Name(long(500, 5), 0),
        Offer::Array(50001, 0),
        Offer::Array(50004, 0),
        Offer::Array(23, 0),
        column(7, -1, 0, 0),
        column(7, 0, 0, 0),
        column(7, 2, 0, 0),
        column(6, 1, 0, 0),
        column(8, 1, 0, 0),
        column(1, 7, 0, 0),
    ];
    let mut room = Room::new(rt.alloc(), MANY)?;
    let mut trial = Trial::new(rt.alloc(), room.lend(), MANY, bench.host.as_bytes());
    fill(rt, &mut bench.tally, &mut trial, &held)?;
    for offer in others {
        let unheld = trial.tells_unheld(offer);
        bench
            .tally
            .note(rt, &format_args!("{offer:?}, not held"), &unheld, &true)?;
    }
    Ok(())
}

pub fn all(rt: &HostRuntime, bench: &mut Bench) -> anyhow::Result<()> {
    names(rt, bench)?;
    arrays(rt, bench)?;
    columns(rt, bench)?;
    unheld(rt, bench)?;
    bench.tally.close(rt, "names, array links and columns")?;
    Ok(())
}
