// What a call refuses: each layer has a fault of its own, an upper one carries the lower one whole, and each tells number, place,
// layer and rounds.
#![tactic(auto)]

pub mod call;
pub mod columns;
pub mod fill;
