// Carries out the lines of a script that need a book: the steps, and what is asked of their answers.
#![tactic(auto)]

pub mod bound;
mod buffers;
pub mod run;
mod statements;
pub mod steps;
