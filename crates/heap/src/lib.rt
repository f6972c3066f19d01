// Memory on the heap, which a program lends to a row table, to a book, and to a step.
#![tactic(auto)]

pub mod books;
pub mod steps;
pub mod tables;
pub mod work;
