// Scripts, run as a whole.
#![tactic(auto)]

pub mod run;
