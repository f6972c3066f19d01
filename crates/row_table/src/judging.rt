// What becomes of an addition that is within the limits: it is refused, or it is new, or it is held already.
ghost use Rattle.std.specs.Prelude.{◌≡◌};
ghost use Rattle.catalog.specs.Meaning.{column_meaning, row_meaning};
ghost use Rattle.row_table.specs.Additions.{column_judged, known_if, name_judged, room_for_column, room_for_row, row_judged};
ghost use Rattle.row_table.specs.Table.{held_of};

use crate::memory::{MOST_COLUMNS, MOST_NAMES, MOST_PARTS, MOST_ROWS};
use crate::table::RowTable;
use catalog::faults::{CatalogFault, HeldIn};
use catalog::row::Row;
use catalog::values::Column;
use keys::kinds::Attribute;
use offers::same::same_row;
use type_info::oid::Oid;

fn known_if(same: bool, place: Oid) -> Result<bool, CatalogFault>
    ensures { result ≡ known_if same place }
{
    if same {
        Ok(false)
    } else {
        Err(CatalogFault::Contradicts(place))
    }
}

impl<'a> RowTable<'a> {
    fn room_for_row(&self, row: &Row) -> Result<bool, CatalogFault>
        ensures { result ≡ room_for_row (held_of self.now) (row_meaning row.now) }
    {
        if self.rows.len() >= MOST_ROWS {
            Err(CatalogFault::Full(HeldIn::Rows))
        } else if self.names.len() >= MOST_NAMES {
            Err(CatalogFault::Full(HeldIn::Names))
        } else if self.part_count + row.labels.len() + row.attributes.len() > MOST_PARTS {
            Err(CatalogFault::Full(HeldIn::Parts))
        } else {
            Ok(true)
        }
    }

    pub(crate) fn is_new_row(&self, oid: Oid, row: &Row) -> Result<bool, CatalogFault>
        ensures { result ≡ row_judged (held_of self.now) oid (row_meaning row.now) }
    {
        match self.rows.find(oid) {
            Some(there) => known_if(same_row(&there, row), oid),
            None if self.names.find(row.pretty.get()).is_some() => {
                Err(CatalogFault::Contradicts(oid))
            }
            None => self.room_for_row(row),
        }
    }

    pub(crate) fn is_new_name(&self, oid: Oid, name: &[u8]) -> Result<bool, CatalogFault>
        ensures { result ≡ name_judged (held_of self.now) oid name.now }
    {
        match self.names.find(name) {
            Some(other) => known_if(other == oid, oid),
            None if self.rows.find(oid).is_none() => Err(CatalogFault::Contradicts(oid)),
            None if self.names.len() >= MOST_NAMES => Err(CatalogFault::Full(HeldIn::Names)),
            None => Ok(true),
        }
    }

    fn room_for_column(&self) -> Result<bool, CatalogFault>
        ensures { result ≡ room_for_column (held_of self.now) }
    {
        if self.columns.len() >= MOST_COLUMNS {
            Err(CatalogFault::Full(HeldIn::Columns))
        } else {
            Ok(true)
        }
    }

    pub(crate) fn is_new_column(&self, at: Attribute, column: &Column) -> Result<bool, CatalogFault>
        ensures { result ≡ column_judged (held_of self.now) at (column_meaning column.now) }
    {
        let Some(table) = self.relations.find(at.relation) else {
            return self.room_for_column();
        };
        if table != column.table {
            return Err(CatalogFault::Contradicts(at.relation));
        }
        match self.columns.find(at) {
            Some(name) => known_if(name == column.name, at.relation),
            None => self.room_for_column(),
        }
    }
}
