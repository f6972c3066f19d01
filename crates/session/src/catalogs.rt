// The catalogs that a script works on, and which of them is in use.
ghost use Rattle.std.specs.Prelude.{◌≡◌, MatchOption};
ghost use Rattle.row_table.specs.Table.{Whole};
ghost use Rattle.session.specs.Catalogs.{allowance_in_use, at_allowance, at_start, held_by, using};

use row_table::memory::Memory;
use row_table::table::RowTable;
use shelf::shelf::Shelf;
use transcript::answers::InUse;

// What a catalog may spend until a script says otherwise.
const ALLOWANCE: u32 = 64;

#[derive(Drop)]
pub struct Catalogs<'a> {
    pub rows: RowTable<'a>,
    pub shelf: Shelf,
    in_use: InUse,
}

impl<'a> Catalogs<'a> {
    // An empty row table, which is in use, and the shelf; none where the memory is not of the row table's size.
    pub fn new(memory: Memory<'a>) -> Option<Catalogs<'a>>
        ensures { MatchOption result (Whole memory.entry → ⊥) (λ c. held_by c ≡ at_start) }
    {
        let rows = RowTable::new(memory, ALLOWANCE)?;
        Some(Catalogs {
            rows,
            shelf: Shelf::new(ALLOWANCE),
            in_use: InUse::Rows,
        })
    }

    // Takes a catalog into use.
    pub fn choose(&mut self, catalog: InUse)
        ensures { held_by self.new ≡ using (held_by self.old) catalog }
    {
        self.in_use = catalog;
    }

    // Sets what the catalog in use may spend.
    pub fn set_allowance(&mut self, allowance: u32)
        ensures { held_by self.new ≡ at_allowance (held_by self.old) allowance }
    {
        match self.in_use {
            InUse::Rows => self.rows.set_allowance(allowance),
            InUse::Shelf => self.shelf.set_allowance(allowance),
        }
    }

    // The catalog in use.
    pub fn in_use(&self) -> InUse
        ensures { result ≡ (held_by self.now).in_use }
    {
        self.in_use
    }

    // What the catalog in use may spend.
    pub fn allowance(&self) -> u32
        ensures { result ≡ allowance_in_use (held_by self.now) }
    {
        match self.in_use {
            InUse::Rows => self.rows.allowance(),
            InUse::Shelf => self.shelf.allowance(),
        }
    }
}
