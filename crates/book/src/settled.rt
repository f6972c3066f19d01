// Settled types: only these have a kind.
use type_info::builtin::BuiltIn;

// The place of a descriptor in a book.
#[derive(Clone, Copy, PartialEq, Eq, Debug)]
pub struct Slot(pub(crate) u32);

// A built-in type, or one that a book describes.
#[derive(Clone, Copy, Debug)]
pub enum Settled {
    BuiltIn(BuiltIn),
    Described(Slot),
}

#[derive(Clone, Copy, PartialEq, Eq, Debug)]
pub enum TypeKind {
    Simple,
    Pseudo,
    Domain,
    Array,
    Range,
    Enum,
    Composite,
}
