// How many cases there were, and how many of them came out otherwise than they have to.
use std::fmt::{Debug, Display};
use std::io;

#[derive(Clone, Copy)]
struct Count {
    cases: u32,
    failed: u32,
}

const NONE: Count = Count {
    cases: 0,
    failed: 0,
};

#[derive(Clone, Copy)]
pub struct Tally {
    all: Count,
    // Those before the theme that is run.
    before: Count,
}

impl Tally {
    pub const EMPTY: Tally = Tally {
        all: NONE,
        before: NONE,
    };

    // What an answer is that has to be another is printed.
    pub fn note<W: Display, A: PartialEq + Debug>(
        &mut self,
        rt: &HostRuntime,
        words: &W,
        answer: &A,
        expected: &A,
    ) -> io::Result<()> {
        self.all.cases = self.all.cases.saturating_add(1);
        if *answer == *expected {
            return Ok(());
        }
        self.all.failed = self.all.failed.saturating_add(1);
        println!(rt; "{words}: {answer:?} and not {expected:?}")
    }

    // The cases since the theme before.
    pub fn close(&mut self, rt: &HostRuntime, theme: &str) -> io::Result<()> {
        let cases = self.all.cases.saturating_sub(self.before.cases);
        let failed = self.all.failed.saturating_sub(self.before.failed);
        self.before = self.all;
        println!(rt; "{theme}: {cases} cases, {failed} failed")
    }

    pub fn print(&self, rt: &HostRuntime) -> io::Result<()> {
        println!(rt; "{} cases, {} failed", self.all.cases, self.all.failed)
    }
}
