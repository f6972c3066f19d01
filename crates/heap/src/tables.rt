// Memory for a row table.
ghost use Rattle.std.specs.Prelude.{IfOk};
ghost use Rattle.row_table.specs.Table.{Whole};
ghost use Rattle.heap.specs.Memory.{Enough};

use catalog::row::Row;
use catalog::values::{LongName, ShortName};
use keys::kinds::Attribute;
use keys::span::Span;
use row_table::memory::{MOST_COLUMNS, MOST_NAMES, MOST_ROWS, Memory, TEXT_BYTES};
use slots::map::Entry;
use std::alloc::{AllocError, Global};
use type_info::oid::Oid;

#[derive(Drop)]
pub struct TableMemory {
    rows: Vec<Entry<Oid, Row>>,
    names: Vec<Entry<Span, Oid>>,
    text: Vec<u8>,
    relations: Vec<Entry<Oid, LongName>>,
    columns: Vec<Entry<Attribute, ShortName>>,
}

impl TableMemory {
    // As much as a row table needs.
    pub fn new(alloc: Global) -> Result<TableMemory, AllocError>
        ensures { IfOk result Enough }
    {
        Ok(TableMemory {
            rows: vec![in alloc; None; MOST_ROWS]?,
            names: vec![in alloc; None; MOST_NAMES]?,
            text: vec![in alloc; 0; TEXT_BYTES]?,
            relations: vec![in alloc; None; MOST_COLUMNS]?,
            columns: vec![in alloc; None; MOST_COLUMNS]?,
        })
    }

    pub fn lend(&mut self) -> Memory<'_>
        ensures { Enough self.old → Whole result }
    {
        Memory {
            rows: self.rows.as_mut_slice(),
            names: self.names.as_mut_slice(),
            text: self.text.as_mut_slice(),
            relations: self.relations.as_mut_slice(),
            columns: self.columns.as_mut_slice(),
        }
    }
}
