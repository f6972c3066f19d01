// Names, array links and columns, each kept unless it is there already or a table has no room.
ghost use Rattle.std.specs.Prelude.{◌≡◌, if◌then◌else◌};
ghost use Rattle.book.specs.Adding.{adds_array, adds_column, adds_name};
ghost use Rattle.book.specs.Book.{held_of};
ghost use Rattle.book.specs.Held.{size_of_column, with_array, with_column, with_name};
ghost use Rattle.book.specs.Sizes.{sizes_told};
ghost use Rattle.book.specs.Stands.{OneTable, Stands, one_array, one_column, one_name};
ghost use Rattle.keys.specs.Senses.{pair_of};
ghost use Rattle.room.specs.Tables.{Tables, extended};

use crate::sizes::Sizes;
use crate::tables::Book;
use keys::kinds::Attribute;
use type_info::oid::Oid;

impl<'a> Book<'a> {
    // Whether the name was added.
    pub fn hold_name(&mut self, name: &[u8], oid: Oid) -> bool
        ensures told { result ≡ adds_name (held_of self.old) name.now }
        ensures held { held_of self.new ≡ if result then with_name (held_of self.old) name.now oid.0 else held_of self.old }
        ensures stands { (t : Tables) → Stands (held_of self.old) t →
            Stands (held_of self.new) (if result then extended t (one_name name.now oid.0) else t) }
    {
        let added = Sizes {
            names: 1,
            text: name.len(),
            ..Sizes::NONE
        };
        if self.names.find(name).is_some() || self.room(added).is_some() {
            return false;
        }
        self.names.intern(name, oid);
        true
    }

    // Whether the array of the element was added.
    pub fn hold_array(&mut self, element: Oid, array: Oid) -> bool
        ensures told { result ≡ adds_array (held_of self.old) element.0 }
        ensures held { held_of self.new ≡ if result then with_array (held_of self.old) element.0 array.0 else held_of self.old }
        ensures stands { (t : Tables) → Stands (held_of self.old) t →
            Stands (held_of self.new) (if result then extended t (one_array element.0 array.0) else t) }
    {
        let added = Sizes {
            arrays: 1,
            ..Sizes::NONE
        };
        if self.arrays.find(element).is_some() || self.room(added).is_some() {
            return false;
        }
        self.arrays.intern(element, array);
        true
    }

    fn size_of_column(&self, relation: Oid, table: &[u8], name: &[u8]) -> Sizes
        ensures { sizes_told result ≡ size_of_column ((held_of self.now).relations relation.0) (record { table = table.now; column = name.now }) }
    {
        let column = Sizes {
            text: name.len(),
            columns: 1,
            ..Sizes::NONE
        };
        if self.relations.find(relation).is_some() {
            return column;
        }
        Sizes {
            text: name.len() + table.len(),
            relations: 1,
            ..column
        }
    }

    // Whether the column was added. Where a column of its relation is held, the table that this one told stays.
    pub fn hold_column(&mut self, at: Attribute, table: &[u8], name: &[u8]) -> bool
        ensures told { result ≡ adds_column (held_of self.old) (pair_of at) (record { table = table.now; column = name.now }) }
        ensures held { held_of self.new ≡ if result then with_column (held_of self.old) (pair_of at) (record { table = table.now; column = name.now }) else held_of self.old }
        ensures stands { (t : Tables) → Stands (held_of self.old) t → OneTable (held_of self.old) at.relation.0 table.now →
            Stands (held_of self.new) (if result then extended t (one_column ((held_of self.old).relations at.relation.0) (pair_of at) (record { table = table.now; column = name.now })) else t) }
    {
        let added = self.size_of_column(at.relation, table, name);
        if self.columns.find(at).is_some() || self.room(added).is_some() {
            return false;
        }
        self.relate(at.relation, table);
        self.push_column(at, name);
        true
    }
}
