// How one thing goes into the tables.
ghost use Rattle.std.specs.Prelude.{◌≡◌, true, [], ◌∷◌, length, None};
ghost use Rattle.book.specs.Adding.{description_with, with_own_column, with_related};
ghost use Rattle.book.specs.Book.{held_of};
ghost use Rattle.book.specs.Descriptions.{slot_of, well_founded};
ghost use Rattle.book.specs.Held.{Fits, size_of_column_name, size_of_description, size_of_members, size_of_relation, sum_of, with_description, with_members, with_relation};
ghost use Rattle.book.specs.Tables.{run_inside};
ghost use Rattle.keys.specs.Senses.{pair_of};

use crate::descriptor::{ColumnNames, Component, Descriptor, Kind, Part};
use crate::tables::Book;
use keys::kinds::Attribute;
use type_info::oid::Oid;

impl<'a> Book<'a> {
    // Adds a label or an attribute of a descriptor that is to come.
    pub(crate) fn push_part(&mut self, name: &[u8], typed: Option<Component>)
        requires { Fits (sum_of (held_of self.old).taken (size_of_members (record { called = name.now; typed = typed } ∷ []))) (held_of self.old).capacity }
        ensures { held_of self.new ≡ with_members (held_of self.old) (record { called = name.now; typed = typed } ∷ []) }
    {
        if let Some(span) = self.names.append(name) {
            self.parts.push(Part { name: span, typed });
        }
    }

    // Adds a descriptor whose parts are there.
    pub(crate) fn push_descriptor(&mut self, oid: Oid, name: &[u8], kind: Kind)
        requires fits { Fits (sum_of (held_of self.old).taken (size_of_description name.now)) (held_of self.old).capacity }
        requires new { slot_of (held_of self.old).descriptions oid.0 ≡ None }
        requires inside { run_inside (length (held_of self.old).members) kind ≡ true }
        requires founded { well_founded (length (held_of self.old).descriptions) (description_with (held_of self.old) oid.0 name.now kind ∷ []) ≡ true }
        ensures { held_of self.new ≡ with_description (held_of self.old) (description_with (held_of self.old) oid.0 name.now kind) }
    {
        if let Some(span) = self.names.append(name) {
            let slot = self.descriptors.len() as u32;
            self.descriptors.push(Descriptor {
                oid,
                name: span,
                kind,
            });
            self.index.intern(oid, slot);
        }
    }

    // Adds the table of a relation.
    fn push_relation(&mut self, relation: Oid, table: &[u8])
        requires fits { Fits (sum_of (held_of self.old).taken (size_of_relation table.now)) (held_of self.old).capacity }
        requires new { (held_of self.old).relations relation.0 ≡ None }
        ensures { held_of self.new ≡ with_relation (held_of self.old) relation.0 table.now }
    {
        if let Some(span) = self.names.append(table) {
            self.relations.intern(relation, span);
        }
    }

    // Adds the table of a relation that has none.
    pub(crate) fn relate(&mut self, relation: Oid, table: &[u8])
        requires { (held_of self.old).relations relation.0 ≡ None → Fits (sum_of (held_of self.old).taken (size_of_relation table.now)) (held_of self.old).capacity }
        ensures { held_of self.new ≡ with_related (held_of self.old) ((held_of self.old).relations relation.0) relation.0 table.now }
    {
        if self.relations.find(relation).is_none() {
            self.push_relation(relation, table);
        }
    }

    // Adds a column of a relation whose table is held.
    pub(crate) fn push_column(&mut self, at: Attribute, name: &[u8])
        requires fits { Fits (sum_of (held_of self.old).taken (size_of_column_name name.now)) (held_of self.old).capacity }
        requires new { (held_of self.old).columns (pair_of at) ≡ None }
        ensures { held_of self.new ≡ with_own_column (held_of self.old) ((held_of self.old).relations at.relation.0) (pair_of at) name.now }
    {
        let Some(table) = self.relations.find(at.relation) else {
            return;
        };
        if let Some(span) = self.names.append(name) {
            self.columns.intern(at, ColumnNames { table, name: span });
        }
    }
}
