// Memory for what a step finds.
ghost use Rattle.std.specs.Prelude.{IfOk};
ghost use Rattle.finds.specs.Finds.{Whole};
ghost use Rattle.heap.specs.Memory.{EnoughFinds};

use catalog::row::Row;
use finds::memory::{INDEX_SLOTS, MOST_OIDS, MOST_ROWS, Memory};
use slots::map::Entry;
use std::alloc::{AllocError, Global};
use type_info::oid::Oid;

#[derive(Drop)]
pub struct FindsMemory {
    queue: Vec<Oid>,
    index: Vec<Entry<Oid, u32>>,
    rows: Vec<Option<Row>>,
    order: Vec<u32>,
    settled: Vec<Entry<Oid, u32>>,
}

impl FindsMemory {
    // As much as a step needs.
    pub fn new(alloc: Global) -> Result<FindsMemory, AllocError>
        ensures { IfOk result EnoughFinds }
    {
        Ok(FindsMemory {
            queue: vec![in alloc; Oid(0); MOST_OIDS]?,
            index: vec![in alloc; None; INDEX_SLOTS]?,
            rows: vec![in alloc; None; MOST_ROWS]?,
            order: vec![in alloc; 0; MOST_ROWS]?,
            settled: vec![in alloc; None; INDEX_SLOTS]?,
        })
    }

    pub fn lend(&mut self) -> Memory<'_>
        ensures { EnoughFinds self.old → Whole result }
    {
        Memory {
            queue: self.queue.as_mut_slice(),
            index: self.index.as_mut_slice(),
            rows: self.rows.as_mut_slice(),
            order: self.order.as_mut_slice(),
            settled: self.settled.as_mut_slice(),
        }
    }
}
