// The row table as a catalog.
ghost use Rattle.row_table.specs.Laws.{table-laws};
ghost use Rattle.row_table.specs.Table.{meaning_of};

use crate::table::RowTable;
use catalog::questions::{ColumnCatalog, NoAllowance, TypeCatalog};
use catalog::row::Row;
use catalog::values::Column;
use keys::kinds::Attribute;
use type_info::oid::{AttributeNumber, Oid};

// A round of a row table. It has no use but to be given back.
pub struct TableRound {
    number: u32,
}

impl<'a> TypeCatalog for RowTable<'a> {
    type Round = TableRound;

    ghost meaning = { meaning_of };

    ghost laws = { table-laws };

    fn open(&mut self) -> Result<TableRound, NoAllowance> {
        if self.allowance == 0 {
            return Err(NoAllowance);
        }
        self.allowance -= 1;
        Ok(TableRound {
            number: self.allowance,
        })
    }

    fn row(&self, _round: &TableRound, oid: Oid) -> Option<Row> {
        self.rows.find(oid)
    }

    fn oid_of(&self, _round: &TableRound, name: &[u8]) -> Option<Oid> {
        self.names.find(name)
    }

    fn close(&mut self, round: TableRound) {
        let TableRound { number: _ } = round;
    }
}

impl<'a> ColumnCatalog for RowTable<'a> {
    fn column(
        &self,
        _round: &TableRound,
        relation: Oid,
        attribute: AttributeNumber,
    ) -> Option<Column> {
        let table = self.relations.find(relation)?;
        let name = self.columns.find(Attribute {
            relation,
            number: attribute,
        })?;
        Some(Column { table, name })
    }
}
