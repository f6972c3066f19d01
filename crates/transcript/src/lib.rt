// What a script's run prints, laid behind what was printed before.
#![tactic(auto)]

pub mod answers;
pub mod steps;
pub mod tree;
pub mod types;
pub mod words;
