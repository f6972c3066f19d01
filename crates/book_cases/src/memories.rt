// Books over memory that others used, and slots of other books.
use crate::bench::{Bench, fill};
use crate::descriptors::of_each_kind;
use crate::full::everything;
use crate::lent::{ENOUGH, MANY, Room, Slots};
use crate::offer::{Offer, labelled, simple};
use crate::tally::Tally;
use crate::telling::tells_nothing;
use crate::trial::Trial;
use book::sizes::Sizes;

fn use_memory(
    rt: &HostRuntime,
    bench: &mut Bench,
    room: &mut Room,
    slots: Slots,
    held: &[Offer],
) -> anyhow::Result<()> {
    let mut trial = Trial::new(rt.alloc(), room.lend(), slots, bench.host.as_bytes());
    fill(rt, &mut bench.tally, &mut trial, held)
}

// A new book knows nothing of what a book before it held, and then holds all of it.
fn run_again(
    rt: &HostRuntime,
    bench: &mut Bench,
    slots: Slots,
    held: &[Offer],
) -> anyhow::Result<()> {
    let mut room = Room::new(rt.alloc(), slots)?;
    use_memory(rt, bench, &mut room, slots, held)?;
    let mut trial = Trial::new(rt.alloc(), room.lend(), slots, bench.host.as_bytes());
    let tally = &mut bench.tally;
    let taken = trial.book.taken();
    tally.note(rt, &"taken of used memory", &taken, &Sizes::NONE)?;
    let judged = trial.judges_room();
    tally.note(rt, &"room of used memory", &judged, &true)?;
    for offer in held {
        let unheld = trial.tells_unheld(*offer);
        tally.note(rt, &format_args!("{offer:?}, held before"), &unheld, &true)?;
    }
    fill(rt, tally, &mut trial, held)?;
    let untold = trial.untold();
    tally.note(rt, &"not told again", &untold, &None)?;
    Ok(())
}

pub fn used(rt: &HostRuntime, bench: &mut Bench) -> anyhow::Result<()> {
    run_again(rt, bench, MANY, &of_each_kind())?;
    let held = everything(rt.alloc())?;
    run_again(rt, bench, MANY, held.as_slice())?;
    run_again(rt, bench, ENOUGH, held.as_slice())?;
    bench.tally.close(rt, "used memory")?;
    Ok(())
}

// Whether the settled type of a row of another book, in this slot, is that of the book's own row in it, or of none.
fn tells_slot(book: &Trial<'_>, other: &Trial<'_>, slot: usize, row: Offer) -> bool {
    let Some(settled) = other.settled(row) else {
        return false;
    };
    match book.held.get(slot) {
        Some(own) => book.tells_settled(settled, *own),
        None => tells_nothing(&book.book, settled),
    }
}

fn note_slots(
    rt: &HostRuntime,
    tally: &mut Tally,
    book: &Trial<'_>,
    other: &Trial<'_>,
) -> anyhow::Result<()> {
    for (slot, row) in other.held.iter().enumerate() {
        let told = tells_slot(book, other, slot, *row);
        let words = format_args!("{row:?} of another book");
        tally.note(rt, &words, &told, &true)?;
    }
    Ok(())
}

// The rows of two books.
fn run_two(
    rt: &HostRuntime,
    bench: &mut Bench,
    slots: Slots,
    rows: &[Offer],
    others: &[Offer],
) -> anyhow::Result<()> {
    let mut room = Room::new(rt.alloc(), slots)?;
    let mut other_room = Room::new(rt.alloc(), MANY)?;
    let host = bench.host.as_bytes();
    let mut trial = Trial::new(rt.alloc(), room.lend(), slots, host);
    let mut other = Trial::new(rt.alloc(), other_room.lend(), MANY, host);
    let tally = &mut bench.tally;
    fill(rt, tally, &mut trial, rows)?;
    fill(rt, tally, &mut other, others)?;
    note_slots(rt, tally, &trial, &other)?;
    note_slots(rt, tally, &other, &trial)
}

pub fn of_others(rt: &HostRuntime, bench: &mut Bench) -> anyhow::Result<()> {
    let none = Slots {
        tables: Sizes::NONE,
        index: 0,
    };
    let two = [labelled(60001, 64), simple(60002)];
    run_two(rt, bench, none, &[], &of_each_kind())?;
    run_two(rt, bench, MANY, &[], &of_each_kind())?;
    run_two(rt, bench, MANY, &two, &of_each_kind())?;
    bench.tally.close(rt, "slots of other books")?;
    Ok(())
}
