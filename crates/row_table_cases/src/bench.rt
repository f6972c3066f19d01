// Cases are run here, printed and counted.
use crate::offer::{NUMBERS, Offer};
use crate::outcome::Outcome;
use crate::room::Room;
use crate::trial::Trial;
use anyhow::Context;
use row_table::table::RowTable;
use std::alloc::{AllocError, Global};
use std::fmt::Display;
use std::io;

// How many cases there were, and how many of them came out as expected.
#[derive(Clone, Copy)]
pub struct Tally {
    cases: u32,
    expected: u32,
}

impl Tally {
    pub fn note<W: Display, R: Display>(
        &mut self,
        rt: &HostRuntime,
        words: &W,
        outcome: &R,
        expected: bool,
    ) -> io::Result<()> {
        self.cases = self.cases.saturating_add(1);
        self.expected = self.expected.saturating_add(u32::from(expected));
        let mark = if expected { "" } else { ", differs" };
        println!(rt; "{words}: {outcome}{mark}")
    }

    pub fn print(&self, rt: &HostRuntime) -> io::Result<()> {
        println!(rt; "{} cases, {} as expected", self.cases, self.expected)
    }
}

// What every table is made of, and where its names lie.
#[derive(Drop)]
pub struct Bench {
    pub host: String,
    pub room: Room,
    pub tally: Tally,
}

fn write_numbers(alloc: Global) -> Result<String, AllocError> {
    let mut text = String::new(alloc);
    for n in 0..NUMBERS {
        write!(text, "{n:04}")?;
    }
    Ok(text)
}

impl Bench {
    pub fn new(alloc: Global) -> Result<Bench, AllocError> {
        Ok(Bench {
            host: write_numbers(alloc)?,
            room: Room::new(alloc, 256, 512, 65536, 1024, 1024)?,
            tally: Tally {
                cases: 0,
                expected: 0,
            },
        })
    }

    // The offers one after the other, to a table that holds something, and what is to become of each.
    pub fn run(
        &mut self,
        rt: &HostRuntime,
        held: &[Offer],
        cases: &[(Offer, Outcome)],
    ) -> anyhow::Result<()> {
        let table = RowTable::new(self.room.lend(), u32::MAX).context("memory of another size")?;
        let mut trial = Trial::new(rt.alloc(), table, self.host.as_bytes(), held)?;
        for (offer, expected) in cases {
            let (outcome, kept) = trial.offer(*offer)?;
            self.tally
                .note(rt, offer, &outcome, outcome == *expected && kept)?;
        }
        Ok(())
    }
}
