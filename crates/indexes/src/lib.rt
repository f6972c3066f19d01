// Tables by name and by keys that a slot keeps whole: owners of a map that ask nothing of their callers.
#![tactic(auto)]

pub mod names;
pub mod whole;
