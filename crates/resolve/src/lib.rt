// A fill: its OIDs are asked for, round after round, until nothing waits, and what was found goes into the book.
#![tactic(auto)]

pub mod filling;
pub mod lists;
pub mod reading;
pub mod rounds;
