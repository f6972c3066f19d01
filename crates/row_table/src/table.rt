// The tables, and what holds of them at all times.
ghost use Rattle.row_table.specs.Held.{Consistent};
ghost use Rattle.row_table.specs.Tables.{Roomy, holding};

use catalog::row::Row;
use catalog::values::{LongName, ShortName};
use indexes::names::NameIndex;
use indexes::whole::{AttributeIndex, OidIndex};
use type_info::oid::Oid;

// The table that the columns of a relation tell is held once, under the relation.
#[derive(Drop)]
pub struct RowTable<'a> {
    pub(crate) rows: OidIndex<'a, Row>,
    pub(crate) names: NameIndex<'a, Oid>,
    pub(crate) part_count: usize,
    pub(crate) relations: OidIndex<'a, LongName>,
    pub(crate) columns: AttributeIndex<'a, ShortName>,
    pub(crate) allowance: u32,
    ghost roomy: { Roomy rows names part_count relations columns },
    ghost consistent: { Consistent (holding rows names part_count relations columns allowance) },
}
