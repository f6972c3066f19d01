// What a host offers to a catalog of its own: names as spans of one host text, read into values within their limits.
#![tactic(auto)]

pub mod offer;
pub mod rows;
pub mod same;
pub mod texts;
