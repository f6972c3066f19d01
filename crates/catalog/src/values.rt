// What rows and columns are made of, each within its limits by its type.
use crate::text::Text;
use type_info::oid::Oid;

// The pretty name of a type, or the name of a table.
pub type LongName = Text<128>;

// A label, or the name of an attribute or a column.
pub type ShortName = Text<63>;

#[derive(Clone, Copy, PartialEq, Eq)]
pub struct Attribute {
    pub name: ShortName,
    pub oid: Oid,
}

#[derive(Clone, Copy, PartialEq, Eq)]
pub struct Column {
    pub table: LongName,
    pub name: ShortName,
}
