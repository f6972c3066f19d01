// How a script is read: text cut at a separator, words, numbers and names.
#![tactic(auto)]

pub mod names;
pub mod numbers;
pub mod words;
