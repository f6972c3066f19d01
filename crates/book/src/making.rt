// A new book, and the room of one.
ghost use Rattle.std.specs.Prelude.{◌≡◌, []};
ghost use Rattle.std.specs.Option.{option_map};
ghost use Rattle.book.specs.Book.{held_of, slots_of};
ghost use Rattle.book.specs.Held.{nothing_held};
ghost use Rattle.book.specs.Lived.{HasLived};
ghost use Rattle.book.specs.Sizes.{position_of, sizes_told};
ghost use Rattle.book.specs.Stands.{Stands};
ghost use Rattle.catalog.specs.Catalog.{Catalog};
ghost use Rattle.room.specs.Sizes.{capacities, first_full};
ghost use Rattle.room.specs.Tables.{no_tables};

use crate::memory::Memory;
use crate::sizes::{BookTable, Sizes};
use crate::tables::Book;
use indexes::names::NameIndex;
use indexes::whole::{AttributeIndex, OidIndex};
use slots::stack::Stack;

impl<'a> Book<'a> {
    // A book that holds nothing, over memory of any size, whatever that held before.
    pub fn new(memory: Memory<'a>) -> Book<'a>
        ensures held { held_of result ≡ nothing_held (capacities (slots_of memory.entry)) }
        ensures stands { Stands (held_of result) no_tables }
        ensures lived { (c : Catalog) → HasLived [] c (held_of result) }
    {
        let Memory {
            descriptors,
            index,
            parts,
            names,
            arrays,
            text,
            columns,
            relations,
        } = memory;
        Book {
            descriptors: Stack::new(descriptors),
            index: OidIndex::new(index),
            parts: Stack::new(parts),
            names: NameIndex::new(text, names),
            arrays: OidIndex::new(arrays),
            columns: AttributeIndex::new(columns),
            relations: OidIndex::new(relations),
        }
    }

    // How much the tables may hold.
    pub fn capacity(&self) -> Sizes
        ensures { sizes_told result ≡ (held_of self.now).capacity }
    {
        let lent = Sizes {
            descriptors: self.descriptors.capacity().min(self.index.capacity()),
            parts: self.parts.capacity(),
            names: self.names.capacity(),
            arrays: self.arrays.capacity(),
            text: self.names.bytes_lent(),
            columns: self.columns.capacity(),
            relations: self.relations.capacity(),
        };
        lent.capacities()
    }

    // How much they hold.
    pub fn taken(&self) -> Sizes
        ensures { sizes_told result ≡ (held_of self.now).taken }
    {
        Sizes {
            descriptors: self.descriptors.len(),
            parts: self.parts.len(),
            names: self.names.len(),
            arrays: self.arrays.len(),
            text: self.names.text().len(),
            columns: self.columns.len(),
            relations: self.relations.len(),
        }
    }

    // The first table without room for what is added to it, if there is one.
    pub fn room(&self, added: Sizes) -> Option<BookTable>
        ensures { option_map position_of result ≡ first_full (held_of self.now).capacity (held_of self.now).taken (sizes_told added) }
    {
        self.capacity().first_full(self.taken(), added)
    }
}
