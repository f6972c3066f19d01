// What a PostgreSQL catalog tells of types: rows and columns, the shape of a row, rounds and questions.
#![tactic(auto)]

pub mod codes;
pub mod faults;
pub mod few;
pub mod questions;
pub mod row;
pub mod shape;
pub mod text;
pub mod values;
