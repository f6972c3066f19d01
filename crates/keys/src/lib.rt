// What tables are searched by: keys by their meaning, and the three kinds that there are.
#![tactic(auto)]

pub mod key;
pub mod kinds;
pub mod span;
