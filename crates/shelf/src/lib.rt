// The catalog of the built-in types alone: it stores its allowance and works out its rows from the built-in table.
#![tactic(auto)]

pub mod rows;
pub mod shelf;
