// The working memory of a step: the OIDs that stand, the rows that were read of them, and which of them can be settled.
#![tactic(auto)]

pub mod columns;
pub mod counting;
pub mod declared;
pub mod keeping;
pub mod making;
pub mod memory;
pub mod reading;
pub mod settling;
pub mod tables;
pub mod telling;
