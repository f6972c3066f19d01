// Memory for a book.
ghost use Rattle.std.specs.Prelude.{◌≡◌, ◌*◌, ◌<◌, ◌≤◌, ◌^◌, min, length, vec_len, IfOk};
ghost use Rattle.book.specs.Book.{slots_of};
ghost use Rattle.book.specs.Sizes.{sizes_told};
ghost use Rattle.heap.specs.Memory.{EnoughBook};
ghost use Rattle.room.specs.Sizes.{capacities};

use book::descriptor::{ColumnNames, Descriptor, Kind, Part};
use book::memory::Memory;
use book::sizes::Sizes;
use keys::kinds::Attribute;
use keys::span::Span;
use slots::map::Entry;
use std::alloc::{AllocError, Global};
use type_info::oid::Oid;

// How much a book can use of each table.
pub const FULL: Sizes = Sizes {
    descriptors: 512,
    parts: 4096,
    names: 1024,
    arrays: 1024,
    text: 65536,
    columns: 1024,
    relations: 128,
};

// What lies in the slots that no book has written yet.
const NOWHERE: Span = Span {
    start: 0,
    length: 0,
};

const NO_DESCRIPTOR: Descriptor = Descriptor {
    oid: Oid(0),
    name: NOWHERE,
    kind: Kind::Simple,
};

const NO_PART: Part = Part {
    name: NOWHERE,
    typed: None,
};

#[derive(Drop)]
pub struct BookMemory {
    descriptors: Vec<Descriptor>,
    index: Vec<Entry<Oid, u32>>,
    parts: Vec<Part>,
    names: Vec<Entry<Span, Oid>>,
    arrays: Vec<Entry<Oid, Oid>>,
    text: Vec<u8>,
    columns: Vec<Entry<Attribute, ColumnNames>>,
    relations: Vec<Entry<Oid, Span>>,
}

// The first of the slots, at most so many.
fn first<T>(slots: &mut Vec<T>, count: usize) -> &mut [T]
    ensures { length result.now ≡ min count (vec_len slots.old) }
{
    let count = slots.len().min(count);
    &mut slots.as_mut_slice()[..count]
}

// Slots of a map that holds at most so many keys, and of which so many slots are asked for: twice as many where it may hold as many
// as it can use, so that look-ups stay short.
fn map_slots(asked: usize, most: usize) -> usize
    requires { 2 * most < 2 ^ 64 }
    ensures used { min result most ≡ min asked most }
    ensures few { result ≤ 2 * most }
{
    if asked < most { asked } else { 2 * most }
}

impl BookMemory {
    // As much as a book can use.
    pub fn new(alloc: Global) -> Result<BookMemory, AllocError>
        ensures { IfOk result EnoughBook }
    {
        Ok(BookMemory {
            descriptors: vec![in alloc; NO_DESCRIPTOR; FULL.descriptors]?,
            index: vec![in alloc; None; 2 * FULL.descriptors]?,
            parts: vec![in alloc; NO_PART; FULL.parts]?,
            names: vec![in alloc; None; 2 * FULL.names]?,
            arrays: vec![in alloc; None; 2 * FULL.arrays]?,
            text: vec![in alloc; 0; FULL.text]?,
            columns: vec![in alloc; None; 2 * FULL.columns]?,
            relations: vec![in alloc; None; 2 * FULL.relations]?,
        })
    }

    // As much as is asked for, of each table at most what a book can use.
    pub fn lend(&mut self, sizes: Sizes) -> Memory<'_>
        ensures { EnoughBook self.old → capacities (slots_of result) ≡ capacities (sizes_told sizes) }
    {
        Memory {
            descriptors: first(&mut self.descriptors, sizes.descriptors),
            index: first(
                &mut self.index,
                map_slots(sizes.descriptors, FULL.descriptors),
            ),
            parts: first(&mut self.parts, sizes.parts),
            names: first(&mut self.names, map_slots(sizes.names, FULL.names)),
            arrays: first(&mut self.arrays, map_slots(sizes.arrays, FULL.arrays)),
            text: first(&mut self.text, sizes.text),
            columns: first(&mut self.columns, map_slots(sizes.columns, FULL.columns)),
            relations: first(
                &mut self.relations,
                map_slots(sizes.relations, FULL.relations),
            ),
        }
    }
}
