// A book: what a kiosk has learnt of a catalog, in tables over memory that the host lends.
#![tactic(auto)]

mod adding;
pub mod answering;
pub mod descriptor;
pub mod finding;
pub mod holding;
pub mod making;
pub mod memory;
pub mod reading;
pub mod settled;
pub mod settling;
pub mod sizes;
pub mod tables;
