// What every table is made of: a text that names lie in, and a map over slots that the host lends.
#![tactic(auto)]

pub mod map;
pub mod stack;
pub mod text;
