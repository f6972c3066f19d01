// How a step comes to its rows: OIDs go into the queue, and their rows are read in turn.
ghost use Rattle.std.specs.Prelude.{◌≡◌, ℕ, ◌∷◌, ◌++◌, [], MatchOption, Some, false, if◌then◌else◌, is_some, length, slice_get};
ghost use Rattle.book.specs.Book.{held_of};
ghost use Rattle.book.specs.Held.{book_held};
ghost use Rattle.catalog.specs.Catalog.{Catalog};
ghost use Rattle.catalog.specs.Meaning.{oid_told, row_told};
ghost use Rattle.finds.specs.Finds.{ReadFrom, order_of, pushed, queue_of, reads_of, rows_of, waits};
ghost use Rattle.life.specs.Lists.{is_in};
ghost use Rattle.life.specs.Walk.{answered};

use crate::memory::MOST_OIDS;
use crate::tables::Finds;
use book::tables::Book;
use catalog::row::Row;
use type_info::oid::Oid;

impl<'a> Finds<'a> {
    // How many OIDs stand.
    pub fn oid_count(&self) -> usize
        ensures { result ≡ length (queue_of self.now) }
    {
        self.queue.len()
    }

    // How many rows were read.
    pub fn row_count(&self) -> usize
        ensures { result ≡ length (rows_of self.now) }
    {
        self.rows.len()
    }

    pub fn oid_at(&self, place: usize) -> Option<Oid>
        ensures { oid_told result ≡ slice_get (queue_of self.now) place }
    {
        self.queue.as_slice().get(place).copied()
    }

    // The place of an OID that stands.
    pub fn place_of(&self, oid: Oid) -> Option<usize>
        ensures { MatchOption result (is_in oid.0 (queue_of self.now) ≡ false) (λ place. slice_get (queue_of self.now) place ≡ Some oid.0) }
    {
        let place = self.index.find(oid)?;
        Some(place as usize)
    }

    // Puts the OID behind those that stand, unless the book knows it, it stands already or there is no place for it.
    pub fn push(&mut self, book: &Book<'_>, oid: Oid)
        ensures queue { queue_of self.new ≡ pushed (answered (book_held (held_of book.now)).descriptors) (queue_of self.old) oid.0 }
        ensures rows { rows_of self.new ≡ rows_of self.old }
        ensures order { order_of self.new ≡ order_of self.old }
        ensures reads { reads_of self.new ≡ reads_of self.old }
    {
        let place = self.queue.len();
        if place == MOST_OIDS || book.knows(oid) || self.index.find(oid).is_some() {
            return;
        }
        self.queue.push(oid);
        self.index.intern(oid, place as u32);
    }

    // The first OID whose row was not read.
    pub fn next(&self) -> Option<Oid>
        ensures { oid_told result ≡ slice_get (queue_of self.now) (length (rows_of self.now)) }
    {
        self.oid_at(self.rows.len())
    }

    // The row of that OID. Nothing, and no change, where there is none or no place for a row. What was settled stays so.
    pub fn read(&mut self, row: Option<Row>) -> Option<()>
        ensures told { is_some result ≡ waits (queue_of self.old) (rows_of self.old) }
        ensures queue { queue_of self.new ≡ queue_of self.old }
        ensures rows { rows_of self.new ≡ if is_some result then rows_of self.old ++ row_told row ∷ [] else rows_of self.old }
        ensures order { order_of self.new ≡ order_of self.old }
        ensures from { (c : Catalog) → ReadFrom c self.old →
            ((o : ℕ) → slice_get (queue_of self.old) (length (rows_of self.old)) ≡ Some o → row_told row ≡ c.rows o) → ReadFrom c self.new }
    {
        if self.rows.len() >= self.queue.len() {
            return None;
        }
        self.rows.push(row)
    }
}
