// Memory for books, on the heap.
use crate::sizes::{LIMITS, lesser, with};
use book::descriptor::{ColumnNames, Component, Descriptor, Kind, Part};
use book::memory::Memory;
use book::sizes::{BookTable, Sizes};
use keys::kinds::Attribute;
use keys::span::Span;
use slots::map::Entry;
use std::alloc::{AllocError, Global};
use type_info::oid::Oid;

// How many slots a host lends.
#[derive(Clone, Copy)]
pub struct Slots {
    pub tables: Sizes,
    // Of the index of the descriptors.
    pub index: usize,
}

// More than a book can use, and as many as it can use.
pub const MANY: Slots = Slots {
    tables: Sizes {
        descriptors: 600,
        parts: 4200,
        names: 2048,
        arrays: 1500,
        text: 65600,
        columns: 1025,
        relations: 256,
    },
    index: 1031,
};

pub const ENOUGH: Slots = Slots {
    tables: LIMITS,
    index: 512,
};

impl Slots {
    // These slots, but so many of one table.
    pub fn with(self, table: BookTable, many: usize) -> Slots {
        Slots {
            tables: with(self.tables, table, many),
            ..self
        }
    }

    // How much a book over them may hold.
    pub fn capacity(self) -> Sizes {
        let descriptors = self.tables.descriptors.min(self.index);
        let tables = with(self.tables, BookTable::Descriptors, descriptors);
        lesser(tables, LIMITS)
    }
}

#[derive(Drop)]
pub struct Room {
    descriptors: Vec<Descriptor>,
    index: Vec<Entry<Oid, u32>>,
    parts: Vec<Part>,
    names: Vec<Entry<Span, Oid>>,
    arrays: Vec<Entry<Oid, Oid>>,
    text: Vec<u8>,
    columns: Vec<Entry<Attribute, ColumnNames>>,
    relations: Vec<Entry<Oid, Span>>,
}

// What lies in the slots that no book has written yet.
const SPAN: Span = Span {
    start: 4294967295,
    length: 4294967295,
};

const DESCRIPTOR: Descriptor = Descriptor {
    oid: Oid(50001),
    name: SPAN,
    kind: Kind::Domain(Component::Slot(4294967295)),
};

const PART: Part = Part {
    name: SPAN,
    typed: Some(Component::Slot(4294967295)),
};

impl Room {
    pub fn new(alloc: Global, slots: Slots) -> Result<Room, AllocError> {
        let tables = slots.tables;
        Ok(Room {
            descriptors: vec![in alloc; DESCRIPTOR; tables.descriptors]?,
            index: vec![in alloc; Some((Oid(50001), 0)); slots.index]?,
            parts: vec![in alloc; PART; tables.parts]?,
            names: vec![in alloc; Some((SPAN, Oid(50001))); tables.names]?,
            arrays: vec![in alloc; Some((Oid(50001), Oid(50002))); tables.arrays]?,
            text: vec![in alloc; 255; tables.text]?,
            columns: vec![in alloc; None; tables.columns]?,
            relations: vec![in alloc; Some((Oid(50001), SPAN)); tables.relations]?,
        })
    }

    pub fn lend(&mut self) -> Memory<'_> {
        Memory {
            descriptors: &mut self.descriptors,
            index: &mut self.index,
            parts: &mut self.parts,
            names: &mut self.names,
            arrays: &mut self.arrays,
            text: &mut self.text,
            columns: &mut self.columns,
            relations: &mut self.relations,
        }
    }
}
