// What a book's tables are made of. A descriptor is one record, with its name in the book's text and its parts in a run of
// the parts.
use keys::span::Span;
use type_info::oid::Oid;

// A type that a descriptor is made of: a built-in one, or that of an earlier slot.
#[derive(Clone, Copy)]
pub enum Component {
    BuiltIn(Oid),
    Slot(u32),
}

// `count` parts, from `first` on.
#[derive(Clone, Copy)]
pub struct Run {
    pub first: u32,
    pub count: u32,
}

// A label, which has no type, or an attribute.
#[derive(Clone, Copy)]
pub struct Part {
    pub name: Span,
    pub typed: Option<Component>,
}

#[derive(Clone, Copy)]
pub enum Kind {
    Simple,
    Pseudo,
    Domain(Component),
    Array(Component),
    Range(Component),
    Enum(Run),
    Composite(Run),
}

#[derive(Clone, Copy)]
pub struct Descriptor {
    pub oid: Oid,
    pub name: Span,
    pub kind: Kind,
}

// A column: the name of its relation's table, and its own.
#[derive(Clone, Copy)]
pub struct ColumnNames {
    pub table: Span,
    pub name: Span,
}
