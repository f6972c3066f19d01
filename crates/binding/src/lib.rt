// A bind: its types and its columns go into the book, and what it answers is written over the host's buffers.
#![tactic(auto)]

pub mod types;
// A bind: the columns that its fields come from are asked for in one round.

pub mod columns;
pub mod memory;
pub mod whole;
pub mod writing;
