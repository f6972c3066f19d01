// Reckoning with the sizes of a book's tables.
use book::sizes::{BookTable, Sizes};

// In the order in which the first without room is told.
pub const TABLES: [BookTable; 7] = [
    BookTable::Descriptors,
    BookTable::Parts,
    BookTable::Names,
    BookTable::Arrays,
    BookTable::Text,
    BookTable::Columns,
    BookTable::Relations,
];

// No book holds more, whatever is lent to it.
pub const LIMITS: Sizes = Sizes {
    descriptors: 512,
    parts: 4096,
    names: 1024,
    arrays: 1024,
    text: 65536,
    columns: 1024,
    relations: 128,
};

// These sizes, but so many in one table.
pub fn with(sizes: Sizes, table: BookTable, many: usize) -> Sizes {
    let mut sizes = sizes;
    match table {
        BookTable::Descriptors => sizes.descriptors = many,
        BookTable::Parts => sizes.parts = many,
        BookTable::Names => sizes.names = many,
        BookTable::Arrays => sizes.arrays = many,
        BookTable::Text => sizes.text = many,
        BookTable::Columns => sizes.columns = many,
        BookTable::Relations => sizes.relations = many,
    }
    sizes
}

pub fn sum(a: Sizes, b: Sizes) -> Sizes {
    Sizes {
        descriptors: a.descriptors.saturating_add(b.descriptors),
        parts: a.parts.saturating_add(b.parts),
        names: a.names.saturating_add(b.names),
        arrays: a.arrays.saturating_add(b.arrays),
        text: a.text.saturating_add(b.text),
        columns: a.columns.saturating_add(b.columns),
        relations: a.relations.saturating_add(b.relations),
    }
}

pub fn difference(a: Sizes, b: Sizes) -> Sizes {
    Sizes {
        descriptors: a.descriptors.saturating_sub(b.descriptors),
        parts: a.parts.saturating_sub(b.parts),
        names: a.names.saturating_sub(b.names),
        arrays: a.arrays.saturating_sub(b.arrays),
        text: a.text.saturating_sub(b.text),
        columns: a.columns.saturating_sub(b.columns),
        relations: a.relations.saturating_sub(b.relations),
    }
}

pub fn lesser(a: Sizes, b: Sizes) -> Sizes {
    Sizes {
        descriptors: a.descriptors.min(b.descriptors),
        parts: a.parts.min(b.parts),
        names: a.names.min(b.names),
        arrays: a.arrays.min(b.arrays),
        text: a.text.min(b.text),
        columns: a.columns.min(b.columns),
        relations: a.relations.min(b.relations),
    }
}
