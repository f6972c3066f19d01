// What a step found goes into the book.
ghost use Rattle.std.specs.Prelude.{◌≡◌, [], None};
ghost use Rattle.book.specs.Book.{held_of};
ghost use Rattle.book.specs.Held.{book_held};
ghost use Rattle.book.specs.Stands.{Stands};
ghost use Rattle.catalog.specs.Catalog.{Catalog, Laws};
ghost use Rattle.finds.specs.Finds.{ReadFrom, reads_of};
ghost use Rattle.finds.specs.Keeping.{SettledBy, array_kept, each, find_at, name_kept, read_finds, row_kept, settled_finds, with_finds};
ghost use Rattle.life.specs.Calls.{Call};
ghost use Rattle.room.specs.Added.{declared_names, types_added, with_types};
ghost use Rattle.room.specs.Sizes.{first_full, sizes_of};
ghost use Rattle.room.specs.Tables.{Tables};

use crate::tables::Finds;
use book::tables::Book;

impl<'a> Finds<'a> {
    fn keep_row(&self, book: &mut Book<'_>, place: usize)
        ensures { held_of book.new ≡ row_kept (held_of book.old) (find_at self.now place) }
    {
        if let Some((oid, row)) = self.find_at(place) {
            book.settle(oid, row);
        }
    }

    fn keep_name(&self, book: &mut Book<'_>, place: usize)
        ensures { held_of book.new ≡ name_kept (held_of book.old) (find_at self.now place) }
    {
        if let Some((oid, row)) = self.find_at(place) {
            book.hold_name(row.pretty.get(), oid);
        }
    }

    fn keep_array(&self, book: &mut Book<'_>, place: usize)
        ensures { held_of book.new ≡ array_kept (held_of book.old) (find_at self.now place) }
    {
        let Some((oid, row)) = self.find_at(place) else {
            return;
        };
        if let Some(array) = row.typarray {
            book.hold_array(oid, array);
        }
    }

    fn keep_rows(&self, book: &mut Book<'_>)
        ensures { held_of book.new ≡ each row_kept (held_of book.old) (settled_finds self.now) }
    {
        for place in self.order.as_slice() {
            self.keep_row(book, *place as usize);
        }
    }

    fn keep_names(&self, book: &mut Book<'_>)
        ensures { held_of book.new ≡ each name_kept (held_of book.old) (settled_finds self.now) }
    {
        for place in self.order.as_slice() {
            self.keep_name(book, *place as usize);
        }
    }

    fn keep_arrays(&self, book: &mut Book<'_>)
        ensures { held_of book.new ≡ each array_kept (held_of book.old) (read_finds self.now) }
    {
        for place in 0..self.rows.len() {
            self.keep_array(book, place);
        }
    }

    // Describes what was settled, in turn, and then holds the names of these and the array links of all rows read. What is held already
    // or has no room is left out.
    pub fn keep(&self, book: &mut Book<'_>)
        ensures held { held_of book.new ≡ with_finds (held_of book.old) self.now }
        ensures capacity { (held_of book.new).capacity ≡ (held_of book.old).capacity }
        ensures kept { (c : Catalog) → Laws c → ReadFrom c self.now → SettledBy c (book_held (held_of book.old)).descriptors self.now →
            (t : Tables) → Stands (held_of book.old) t → (call : Call) → declared_names call ≡ [] →
            first_full (held_of book.old).capacity (held_of book.old).taken (sizes_of (types_added c t call (reads_of self.now) [])) ≡ None →
            Stands (held_of book.new) (with_types c t call (reads_of self.now) []) }
    {
        self.keep_rows(book);
        self.keep_names(book);
        self.keep_arrays(book);
    }
}
