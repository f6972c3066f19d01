// A step that has found nothing.
ghost use Rattle.std.specs.Prelude.{◌≡◌, [], MatchOption};
ghost use Rattle.finds.specs.Finds.{Whole, order_of, queue_of, rows_of};

use crate::memory::{INDEX_SLOTS, MOST_OIDS, MOST_ROWS, Memory};
use crate::tables::Finds;
use indexes::whole::OidIndex;
use slots::stack::Stack;

impl<'a> Finds<'a> {
    // Nothing found; none where the memory is not of the tables' size.
    pub fn new(memory: Memory<'a>) -> Option<Finds<'a>>
        ensures { MatchOption result (Whole memory.entry → ⊥)
            (λ f. Whole memory.entry × (queue_of f ≡ []) × (rows_of f ≡ []) × (order_of f ≡ [])) }
    {
        let Memory {
            queue,
            index,
            rows,
            order,
            settled,
        } = memory;
        if queue.len() != MOST_OIDS
            || index.len() != INDEX_SLOTS
            || rows.len() != MOST_ROWS
            || order.len() != MOST_ROWS
            || settled.len() != INDEX_SLOTS
        {
            return None;
        }
        Some(Finds {
            queue: Stack::new(queue),
            index: OidIndex::new(index),
            rows: Stack::new(rows),
            order: Stack::new(order),
            settled: OidIndex::new(settled),
        })
    }

    // Nothing found, whatever was there.
    pub fn clear(&mut self)
        ensures queue { queue_of self.new ≡ [] }
        ensures rows { rows_of self.new ≡ [] }
        ensures order { order_of self.new ≡ [] }
    {
        self.queue.clear();
        self.index.clear();
        self.rows.clear();
        self.order.clear();
        self.settled.clear();
    }
}
