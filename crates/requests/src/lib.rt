// What a host asks of a book, with names as spans of its text, and what is refused before any round.
#![tactic(auto)]

pub mod asked;
pub mod early;
pub mod ordinals;
