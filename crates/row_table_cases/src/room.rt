// Memory for row tables, on the heap.
use catalog::row::Row;
use catalog::values::{LongName, ShortName};
use keys::kinds::Attribute;
use keys::span::Span;
use row_table::memory::Memory;
use slots::map::Entry;
use std::alloc::{AllocError, Global};
use type_info::oid::Oid;

#[derive(Drop)]
pub struct Room {
    rows: Vec<Entry<Oid, Row>>,
    names: Vec<Entry<Span, Oid>>,
    text: Vec<u8>,
    relations: Vec<Entry<Oid, LongName>>,
    columns: Vec<Entry<Attribute, ShortName>>,
}

impl Room {
    // So many slots of each, and bytes for names.
    pub fn new(
        alloc: Global,
        rows: usize,
        names: usize,
        text: usize,
        relations: usize,
        columns: usize,
    ) -> Result<Room, AllocError> {
        Ok(Room {
            rows: vec![in alloc; None; rows]?,
            names: vec![in alloc; None; names]?,
            text: vec![in alloc; 0; text]?,
            relations: vec![in alloc; None; relations]?,
            columns: vec![in alloc; None; columns]?,
        })
    }

    pub fn lend(&mut self) -> Memory<'_> {
        Memory {
            rows: &mut self.rows,
            names: &mut self.names,
            text: &mut self.text,
            relations: &mut self.relations,
            columns: &mut self.columns,
        }
    }
}
