// PostgreSQL's types as a program names them: OIDs, the built-in types, declared types.
#![tactic(auto)]

pub mod builtin;
pub mod declared;
pub mod oid;
mod table;
