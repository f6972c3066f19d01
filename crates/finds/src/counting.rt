// How much what a step found takes beyond what a book holds.
ghost use Rattle.std.specs.Prelude.{◌≡◌, [], map};
ghost use Rattle.std.specs.Option.{option_map};
ghost use Rattle.book.specs.Book.{held_of};
ghost use Rattle.book.specs.Held.{FewOf, book_held, sum_of};
ghost use Rattle.book.specs.Sizes.{sizes_told};
ghost use Rattle.book.specs.Stands.{Stands};
ghost use Rattle.catalog.specs.Catalog.{Catalog, Laws};
ghost use Rattle.catalog.specs.Meaning.{row_meaning};
ghost use Rattle.finds.specs.Finds.{ReadFrom, reads_of};
ghost use Rattle.finds.specs.Keeping.{SettledBy, array_size, find_at, read_finds, settled_finds, settled_size, size_of_all, size_of_finds};
ghost use Rattle.life.specs.Calls.{Call};
ghost use Rattle.room.specs.Added.{declared_names, types_added};
ghost use Rattle.room.specs.Sizes.{sizes_of};
ghost use Rattle.room.specs.Tables.{Tables};

use crate::tables::Finds;
use book::settling::size_of_row;
use book::sizes::Sizes;
use book::tables::Book;
use catalog::row::Row;
use type_info::oid::Oid;

pub(crate) fn plus(sizes: Sizes, more: Sizes) -> Sizes
    requires sizes { FewOf 4294967296 (sizes_told sizes) }
    requires more { FewOf 4294967296 (sizes_told more) }
    ensures { sizes_told result ≡ sum_of (sizes_told sizes) (sizes_told more) }
{
    Sizes {
        descriptors: sizes.descriptors + more.descriptors,
        parts: sizes.parts + more.parts,
        names: sizes.names + more.names,
        arrays: sizes.arrays + more.arrays,
        text: sizes.text + more.text,
        columns: sizes.columns + more.columns,
        relations: sizes.relations + more.relations,
    }
}

impl<'a> Finds<'a> {
    // The OID and the row at a place: nothing where it has no row.
    pub(crate) fn find_at(&self, place: usize) -> Option<(Oid, &Row)>
        ensures { option_map (λ r. (r.0.0, row_meaning r.1.now)) result ≡ find_at self.now place }
    {
        match self.row_at(place) {
            Some((oid, Some(row))) => Some((oid, row)),
            Some((_, None)) | None => None,
        }
    }

    // What the row at a place takes as a descriptor, with its name if the book does not hold that.
    fn settled_size(&self, book: &Book<'_>, place: usize) -> Sizes
        ensures size { sizes_told result ≡ settled_size (held_of book.now) (find_at self.now place) }
        ensures few { FewOf 16384 (sizes_told result) }
    {
        let Some((_, row)) = self.find_at(place) else {
            return Sizes::NONE;
        };
        let sizes = size_of_row(row);
        let name = row.pretty.get();
        if book.oid_of(name).is_some() {
            return sizes;
        }
        Sizes {
            names: sizes.names + 1,
            text: sizes.text + name.len(),
            ..sizes
        }
    }

    // What the array link of the row at a place takes, if it has one that the book does not hold.
    fn array_size(&self, book: &Book<'_>, place: usize) -> Sizes
        ensures size { sizes_told result ≡ array_size (held_of book.now) (find_at self.now place) }
        ensures few { FewOf 16384 (sizes_told result) }
    {
        match self.find_at(place) {
            Some((oid, row)) if row.typarray.is_some() && book.array_of(oid).is_none() => Sizes {
                arrays: 1,
                ..Sizes::NONE
            },
            Some(_) | None => Sizes::NONE,
        }
    }

    fn settled_sizes(&self, book: &Book<'_>) -> Sizes
        ensures size { sizes_told result ≡ size_of_all (settled_size (held_of book.now)) (settled_finds self.now) }
        ensures few { FewOf 4194304 (sizes_told result) }
    {
        let mut sizes = Sizes::NONE;
        for place in self.order.as_slice() {
            sizes = plus(sizes, self.settled_size(book, *place as usize));
        }
        sizes
    }

    fn array_sizes(&self, book: &Book<'_>) -> Sizes
        ensures size { sizes_told result ≡ size_of_all (array_size (held_of book.now)) (read_finds self.now) }
        ensures few { FewOf 4194304 (sizes_told result) }
    {
        let mut sizes = Sizes::NONE;
        for place in 0..self.rows.len() {
            sizes = plus(sizes, self.array_size(book, place));
        }
        sizes
    }

    // Of each settled row its descriptor, and its pretty name if the book does not hold that; of each row read the array link, if
    // the book holds none of its OID. In the words of the law it is what a call that declares no names adds.
    pub fn added(&self, book: &Book<'_>) -> Sizes
        ensures size { sizes_told result ≡ size_of_finds (held_of book.now) self.now }
        ensures added { (c : Catalog) → Laws c → ReadFrom c self.now → SettledBy c (book_held (held_of book.now)).descriptors self.now →
            (t : Tables) → Stands (held_of book.now) t → (call : Call) → declared_names call ≡ [] →
            sizes_told result ≡ sizes_of (types_added c t call (reads_of self.now) []) }
        ensures few { FewOf 8388608 (sizes_told result) }
    {
        plus(self.settled_sizes(book), self.array_sizes(book))
    }
}
