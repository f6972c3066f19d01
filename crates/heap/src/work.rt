// Memory for all that steps note.
ghost use Rattle.std.specs.Prelude.{IfOk};
ghost use Rattle.calls.specs.Working.{Whole};
ghost use Rattle.heap.specs.Memory.{EnoughWork};

use crate::steps::FindsMemory;
use binding::memory::{COLUMN_SLOTS, ColumnMemory, MOST_COLUMNS};
use calls::work::{NAME_BYTES, NAME_SLOTS, WorkMemory};
use catalog::values::{Column, LongName, ShortName};
use entries::notes::{MOST_NOTES, NOTE_SLOTS, NotesMemory};
use keys::kinds::Attribute;
use keys::span::Span;
use slots::map::Entry;
use std::alloc::{AllocError, Global};
use type_info::oid::{AttributeNumber, Oid};

#[derive(Drop)]
pub struct StepMemory {
    finds: FindsMemory,
    leads: Vec<Option<Oid>>,
    apart: Vec<(Oid, Option<Oid>)>,
    apart_index: Vec<Entry<Oid, Option<Oid>>>,
    asked: Vec<Entry<Attribute, u32>>,
    found: Vec<(Attribute, Column)>,
    seen: Vec<Entry<Oid, u32>>,
    text: Vec<u8>,
    names: Vec<Entry<Span, Oid>>,
}

// What lies in the places that no column was written to yet.
fn no_column() -> (Attribute, Column) {
    let at = Attribute {
        relation: Oid(0),
        number: AttributeNumber(0),
    };
    let column = Column {
        table: LongName::new(b"-").unwrap(),
        name: ShortName::new(b"-").unwrap(),
    };
    (at, column)
}

impl StepMemory {
    // As much as any step needs.
    pub fn new(alloc: Global) -> Result<StepMemory, AllocError>
        ensures { IfOk result EnoughWork }
    {
        Ok(StepMemory {
            finds: FindsMemory::new(alloc)?,
            leads: vec![in alloc; None; MOST_NOTES]?,
            apart: vec![in alloc; (Oid(0), None); MOST_NOTES]?,
            apart_index: vec![in alloc; None; NOTE_SLOTS]?,
            asked: vec![in alloc; None; COLUMN_SLOTS]?,
            found: vec![in alloc; no_column(); MOST_COLUMNS]?,
            seen: vec![in alloc; None; COLUMN_SLOTS]?,
            text: vec![in alloc; 0; NAME_BYTES]?,
            names: vec![in alloc; None; NAME_SLOTS]?,
        })
    }

    pub fn lend(&mut self) -> WorkMemory<'_>
        ensures { EnoughWork self.old → Whole result }
    {
        WorkMemory {
            finds: self.finds.lend(),
            notes: NotesMemory {
                leads: self.leads.as_mut_slice(),
                apart: self.apart.as_mut_slice(),
                index: self.apart_index.as_mut_slice(),
            },
            columns: ColumnMemory {
                asked: self.asked.as_mut_slice(),
                found: self.found.as_mut_slice(),
                seen: self.seen.as_mut_slice(),
            },
            text: self.text.as_mut_slice(),
            names: self.names.as_mut_slice(),
        }
    }
}
