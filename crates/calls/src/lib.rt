// The calls of a kiosk on its book, as a host makes them.
#![tactic(auto)]

pub mod bound;
pub mod describing;
pub mod early;
pub mod filling;
pub mod resolving;
pub mod work;
pub mod working;
