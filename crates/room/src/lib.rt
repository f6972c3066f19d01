// How much a book's tables hold, what a step adds to each, and the laws of a life in which they may be full: statements about the
// definitions of specs/, each asked for by a contract.
#![tactic(auto)]

pub mod adding;
pub mod limits;
pub mod sizes;
