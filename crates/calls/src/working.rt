// Working memory of the right size.
ghost use Rattle.std.specs.Prelude.{MatchOption};
ghost use Rattle.calls.specs.Working.{Whole};

use crate::work::{NAME_BYTES, NAME_SLOTS, Work, WorkMemory};
use binding::memory::ColumnFinds;
use entries::notes::Notes;
use finds::tables::Finds;

impl<'a> Work<'a> {
    // None where a part of the memory is not of the size of its tables.
    pub fn new(memory: WorkMemory<'a>) -> Option<Work<'a>>
        ensures { MatchOption result (Whole memory.entry → ⊥) (λ _. Whole memory.entry) }
    {
        let WorkMemory {
            finds,
            notes,
            columns,
            text,
            names,
        } = memory;
        if text.len() != NAME_BYTES || names.len() != NAME_SLOTS {
            return None;
        }
        Some(Work {
            finds: Finds::new(finds)?,
            notes: Notes::new(notes)?,
            columns: ColumnFinds::new(columns)?,
            text,
            names,
        })
    }
}
