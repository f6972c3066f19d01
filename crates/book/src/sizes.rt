// How much a book's seven tables hold and may hold, and the first without room for what is added.
ghost use Rattle.std.specs.Prelude.{◌≡◌, ◌+◌, nat_lt};
ghost use Rattle.std.specs.Option.{option_map};
ghost use Rattle.book.specs.Sizes.{position_of, sizes_told};
ghost use Rattle.room.specs.Sizes.{capacities, first_full};

#[derive(Clone, Copy, PartialEq, Eq, Debug)]
pub struct Sizes {
    pub descriptors: usize,
    // Labels and attributes together.
    pub parts: usize,
    pub names: usize,
    pub arrays: usize,
    // In bytes.
    pub text: usize,
    pub columns: usize,
    pub relations: usize,
}

#[derive(Clone, Copy, PartialEq, Eq, Debug)]
pub enum BookTable {
    Descriptors,
    Parts,
    Names,
    Arrays,
    Text,
    Columns,
    Relations,
}

fn lacks_room(capacity: usize, taken: usize, added: usize) -> bool
    ensures { result ≡ nat_lt capacity (taken + added) }
{
    match taken.checked_add(added) {
        Some(sum) => capacity < sum,
        None => true,
    }
}

impl Sizes {
    pub const NONE: Sizes = Sizes {
        descriptors: 0,
        parts: 0,
        names: 0,
        arrays: 0,
        text: 0,
        columns: 0,
        relations: 0,
    };

    // As much as the host lends, and no more than a book can use.
    pub fn capacities(self) -> Sizes
        ensures { sizes_told result ≡ capacities (sizes_told self) }
    {
        Sizes {
            descriptors: self.descriptors.min(512),
            parts: self.parts.min(4096),
            names: self.names.min(1024),
            arrays: self.arrays.min(1024),
            text: self.text.min(65536),
            columns: self.columns.min(1024),
            relations: self.relations.min(128),
        }
    }

    // The first table that cannot take what is added to what it holds.
    pub fn first_full(self, taken: Sizes, added: Sizes) -> Option<BookTable>
        ensures { option_map position_of result ≡ first_full (sizes_told self) (sizes_told taken) (sizes_told added) }
    {
        if lacks_room(self.descriptors, taken.descriptors, added.descriptors) {
            Some(BookTable::Descriptors)
        } else if lacks_room(self.parts, taken.parts, added.parts) {
            Some(BookTable::Parts)
        } else if lacks_room(self.names, taken.names, added.names) {
            Some(BookTable::Names)
        } else if lacks_room(self.arrays, taken.arrays, added.arrays) {
            Some(BookTable::Arrays)
        } else if lacks_room(self.text, taken.text, added.text) {
            Some(BookTable::Text)
        } else if lacks_room(self.columns, taken.columns, added.columns) {
            Some(BookTable::Columns)
        } else if lacks_room(self.relations, taken.relations, added.relations) {
            Some(BookTable::Relations)
        } else {
            None
        }
    }
}
