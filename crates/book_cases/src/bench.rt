// Cases are run here, over books of any size.
use crate::lent::{Room, Slots};
use crate::offer::{NUMBERS, Offer};
use crate::outcome::Outcome;
use crate::tally::Tally;
use crate::trial::Trial;
use std::alloc::{AllocError, Global};

#[derive(Drop)]
pub struct Bench {
    pub host: String,
    pub tally: Tally,
}

// The offers, all of which are to be added.
pub fn fill(
    rt: &HostRuntime,
    tally: &mut Tally,
    trial: &mut Trial<'_>,
    offers: &[Offer],
) -> anyhow::Result<()> {
    let capacity = trial.book.capacity();
    tally.note(rt, &"capacity", &capacity, &trial.capacity)?;
    let refused = trial.fill(offers)?;
    tally.note(rt, &"not added", &refused, &None)?;
    Ok(())
}

// What becomes of the offer, and what the book tells then.
pub fn run_case(
    rt: &HostRuntime,
    tally: &mut Tally,
    trial: &mut Trial<'_>,
    offer: Offer,
    expected: Outcome,
) -> anyhow::Result<()> {
    let outcome = trial.offer(offer)?;
    tally.note(rt, &format_args!("{offer:?}"), &outcome, &expected)?;
    let told = trial.tells(offer);
    tally.note(rt, &format_args!("{offer:?}, told"), &told, &true)?;
    let taken = trial.book.taken();
    tally.note(rt, &format_args!("{offer:?}, taken"), &taken, &trial.taken)?;
    let untold = trial.untold();
    tally.note(rt, &format_args!("{offer:?}, not told"), &untold, &None)?;
    let judged = trial.judges_room();
    tally.note(rt, &format_args!("{offer:?}, room"), &judged, &true)?;
    Ok(())
}

fn write_numbers(alloc: Global) -> Result<String, AllocError> {
    let mut text = String::new(alloc);
    for n in 0..NUMBERS {
        write!(text, "{n:04}")?;
    }
    Ok(text)
}

impl Bench {
    pub fn new(alloc: Global) -> Result<Bench, AllocError> {
        Ok(Bench {
            host: write_numbers(alloc)?,
            tally: Tally::EMPTY,
        })
    }

    // The offers one after the other, to a book that holds something, and what is to become of each.
    pub fn run(
        &mut self,
        rt: &HostRuntime,
        slots: Slots,
        held: &[Offer],
        cases: &[(Offer, Outcome)],
    ) -> anyhow::Result<()> {
        let mut room = Room::new(rt.alloc(), slots)?;
        let mut trial = Trial::new(rt.alloc(), room.lend(), slots, self.host.as_bytes());
        fill(rt, &mut self.tally, &mut trial, held)?;
        for (offer, expected) in cases {
            run_case(rt, &mut self.tally, &mut trial, *offer, *expected)?;
        }
        Ok(())
    }
}
