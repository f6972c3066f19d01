// How an addition that is new goes into the tables.
ghost use Rattle.std.specs.Prelude.{◌≡◌, ◌≤◌, length, true, Ok};
ghost use Rattle.catalog.specs.Catalog.{Sized};
ghost use Rattle.catalog.specs.Meaning.{column_meaning, row_meaning};
ghost use Rattle.row_table.specs.Additions.{column_judged, name_judged, row_judged, with_column, with_name, with_row};
ghost use Rattle.row_table.specs.Table.{held_of};

use crate::table::RowTable;
use catalog::row::Row;
use catalog::values::Column;
use keys::kinds::Attribute;
use type_info::oid::Oid;

impl<'a> RowTable<'a> {
    pub(crate) fn put_row(&mut self, oid: Oid, row: Row)
        requires some { 1 ≤ oid.0 }
        requires new { row_judged (held_of self.old) oid (row_meaning row) ≡ Ok true }
        ensures { held_of self.new ≡ with_row (held_of self.old) oid (row_meaning row) }
    {
        self.names.intern(row.pretty.get(), oid);
        self.rows.intern(oid, row);
        self.part_count += row.labels.len() + row.attributes.len();
    }

    pub(crate) fn put_name(&mut self, oid: Oid, name: &[u8])
        requires sized { Sized 128 name.now }
        requires new { name_judged (held_of self.old) oid name.now ≡ Ok true }
        ensures { held_of self.new ≡ with_name (held_of self.old) oid name.now }
    {
        self.names.intern(name, oid);
    }

    // The relation's table is held already, unless this is its first column.
    pub(crate) fn put_column(&mut self, at: Attribute, column: &Column)
        requires { column_judged (held_of self.old) at (column_meaning column.now) ≡ Ok true }
        ensures { held_of self.new ≡ with_column (held_of self.old) at (column_meaning column.now) }
    {
        self.relations.intern(at.relation, column.table);
        self.columns.intern(at, column.name);
    }
}
