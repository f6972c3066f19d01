// The laws of a book's life: statements about the definitions of specs/, each asked for by a contract.
#![tactic(auto)]

pub mod binding;
pub mod filling;
pub mod host_calls;
pub mod keeping;
pub mod ordinals;
pub mod performing;
pub mod resolving;
pub mod rounds;
pub mod settling;
pub mod steps;
pub mod telling;
pub mod writing;
