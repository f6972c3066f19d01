// Carries out a script line by line and lays what is printed into a buffer.
#![tactic(auto)]

pub mod catalogs;
pub mod questions;
pub mod replies;
pub mod session;
