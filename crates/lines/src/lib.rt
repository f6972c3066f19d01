// What the lines of a script ask for: the words behind the first, read into values, or why they are not understood.
#![tactic(auto)]

pub mod additions;
pub mod books;
pub mod catalogs;
pub mod entry;
pub mod host;
pub mod row;
pub mod steps;
pub mod trouble;
pub mod verb;
pub mod word;
