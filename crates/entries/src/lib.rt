// Round 1 of a resolve: its entries are asked for one after the other, and what they lead to goes on round by round.
#![tactic(auto)]

pub mod answering;
pub mod asking;
pub mod first_round;
pub mod notes;
pub mod noting;
pub mod walking;
