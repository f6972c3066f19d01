// The catalog of what a host adds: rows, names and columns, in memory that the host lends.
#![tactic(auto)]

pub mod additions;
mod judging;
pub mod memory;
mod putting;
pub mod rounds;
pub mod table;
