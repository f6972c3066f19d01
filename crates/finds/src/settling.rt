// Settling the rows that were read: pass after pass, a row whose links are all known is settled itself.
ghost use Rattle.std.specs.Prelude.{◌≡◌, ℕ, ◌∷◌, ◌++◌, [], None, false, is_some, length, nat_lt, slice_index, slice_index_or, true};
ghost use Rattle.std.specs.List.{list_all};
ghost use Rattle.book.specs.Book.{held_of};
ghost use Rattle.book.specs.Held.{book_held};
ghost use Rattle.catalog.specs.Catalog.{Catalog};
ghost use Rattle.catalog.specs.Meaning.{links_told};
ghost use Rattle.finds.specs.Finds.{ReadFrom, order_of, queue_of, reads_of, rows_of};
ghost use Rattle.finds.specs.Passes.{Passed, follows_at};
ghost use Rattle.life.specs.InTurn.{InTurn, known_so};
ghost use Rattle.life.specs.Lists.{is_in};
ghost use Rattle.life.specs.Settle.{pass, settled};
ghost use Rattle.type_info.specs.declared.oid.Oid.{Oid};
ghost use Rattle.unfolding.specs.Lists.{Mem};

use crate::tables::Finds;
use book::tables::Book;
use catalog::few::Few;
use type_info::oid::Oid;

impl<'a> Finds<'a> {
    // Whether the OID is built in, described by the book, or settled in this step.
    pub(crate) fn is_known(&self, book: &Book<'_>, oid: Oid) -> bool
        ensures { result ≡ known_so (book_held (held_of book.now)).descriptors (order_of self.now) oid.0 }
    {
        book.knows(oid) || self.settled.find(oid).is_some()
    }

    fn knows_each(&self, book: &Book<'_>, oids: &[Oid]) -> bool
        ensures { let known = known_so (book_held (held_of book.now)).descriptors (order_of self.now) in
            result ≡ list_all (λ (oid : Oid). known oid.0) oids.now }
    {
        oids.iter().all(|oid| self.is_known(book, *oid))
    }

    fn knows_all(&self, book: &Book<'_>, links: &Few<Oid, 64>) -> bool
        ensures { result ≡ list_all (known_so (book_held (held_of book.now)).descriptors (order_of self.now)) (links_told links.now) }
    {
        self.knows_each(book, links.as_slice())
    }

    // Whether the OID at the place can be settled next.
    fn is_ready(&self, book: &Book<'_>, place: usize) -> bool
        ensures { result ≡ follows_at (book_held (held_of book.now)).descriptors self.now place }
    {
        let Some(oid) = self.queue.as_slice().get(place) else {
            return false;
        };
        let Some(Some(row)) = self.rows.as_slice().get(place) else {
            return false;
        };
        if self.is_known(book, *oid) {
            return false;
        }
        match row.shape() {
            Ok(shape) => self.knows_all(book, &shape.links),
            Err(_) => false,
        }
    }

    // Puts the OID at the place behind those that are settled.
    fn add(&mut self, place: usize)
        requires row { is_some (slice_index_or (rows_of self.old) place None) ≡ true }
        requires new { is_in (slice_index (queue_of self.old) place) (order_of self.old) ≡ false }
        ensures queue { queue_of self.new ≡ queue_of self.old }
        ensures rows { rows_of self.new ≡ rows_of self.old }
        ensures order { order_of self.new ≡ order_of self.old ++ slice_index (queue_of self.old) place ∷ [] }
    {
        let oid = self.queue.as_slice()[place];
        let slot = place as u32;
        self.order.push(slot);
        self.settled.intern(oid, slot);
    }

    // One pass over the rows, from the last to the first: whether it settled anything.
    fn pass(&mut self, book: &Book<'_>) -> bool
        ensures told { result ≡ nat_lt (length (order_of self.old)) (length (order_of self.new)) }
        ensures passed { Passed (book_held (held_of book.now)).descriptors 0 self.old self.new }
    {
        let before = self.order.len();
        for place in (0..self.rows.len()).rev() {
            if self.is_ready(book, place) {
                self.add(place);
            }
        }
        before < self.order.len()
    }

    // Settles what can be settled of the rows read, whatever was settled before: passes go over them until one settles nothing. A
    // chain is read its users first, and is settled in one pass.
    pub fn settle(&mut self, book: &Book<'_>)
        ensures queue { queue_of self.new ≡ queue_of self.old }
        ensures rows { rows_of self.new ≡ rows_of self.old }
        ensures among { (o : ℕ) → Mem o (order_of self.new) → Mem o (reads_of self.old) }
        ensures turn { (c : Catalog) → ReadFrom c self.old → InTurn c (book_held (held_of book.now)).descriptors (order_of self.new) }
        ensures settles { (c : Catalog) → ReadFrom c self.old → let b = (book_held (held_of book.now)).descriptors in
            pass c b (order_of self.new) ≡ settled c b (reads_of self.old) }
    {
        self.order.clear();
        self.settled.clear();
        while self.pass(book) {}
    }
}
