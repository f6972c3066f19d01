// The shelf as a catalog.
ghost use Rattle.std.specs.Prelude.{◌≡◌, ℕ};
ghost use Rattle.catalog.specs.Catalog.{spent};
ghost use Rattle.shelf.specs.Laws.{shelf-laws};
ghost use Rattle.shelf.specs.Rows.{shelf_of};

use crate::rows::{rngsubtype, typarray, typcategory, typelem, typtype};
use catalog::few::Few;
use catalog::questions::{ColumnCatalog, NoAllowance, TypeCatalog};
use catalog::row::Row;
use catalog::values::{Attribute, Column, LongName, ShortName};
use std::marker::Model;
use type_info::builtin::{by_name, by_oid};
use type_info::oid::{AttributeNumber, Oid};

#[derive(Drop)]
pub struct Shelf {
    allowance: u32,
}

// A round of the shelf. It has no use but to be given back.
pub struct ShelfRound {
    number: u32,
}

// A shelf is known by what is left of its allowance.
impl Model for Shelf {
    ghost Value = { ℕ };

    ghost view = { λ s. s.allowance };
}

impl Shelf {
    pub fn new(allowance: u32) -> Shelf
        ensures { shelf_of result ≡ shelf_of allowance }
    {
        Shelf { allowance }
    }

    pub fn set_allowance(&mut self, allowance: u32)
        ensures { shelf_of self.new ≡ spent (shelf_of self.old) allowance }
    {
        self.allowance = allowance;
    }

    pub fn allowance(&self) -> u32
        ensures { result ≡ (shelf_of self.now).allowance }
    {
        self.allowance
    }
}

impl TypeCatalog for Shelf {
    type Round = ShelfRound;

    ghost meaning = { shelf_of };

    ghost laws = { shelf-laws };

    fn open(&mut self) -> Result<ShelfRound, NoAllowance> {
        if self.allowance == 0 {
            return Err(NoAllowance);
        }
        self.allowance -= 1;
        Ok(ShelfRound {
            number: self.allowance,
        })
    }

    fn row(&self, _round: &ShelfRound, oid: Oid) -> Option<Row> {
        let entry = by_oid(oid)?;
        let pretty = LongName::new(entry.name())?;
        let kind = entry.kind();
        let unused = ShortName::new(b"-")?;
        let labels = Few::new(unused);
        let attributes = Few::new(Attribute {
            name: unused,
            oid: Oid(1),
        });
        Some(Row {
            pretty,
            typtype: typtype(kind),
            typcategory: typcategory(kind),
            typelem: typelem(kind),
            typbasetype: None,
            rngsubtype: rngsubtype(kind),
            typarray: typarray(oid),
            labels,
            attributes,
        })
    }

    fn oid_of(&self, _round: &ShelfRound, name: &[u8]) -> Option<Oid> {
        by_name(name).map(|entry| entry.oid())
    }

    fn close(&mut self, round: ShelfRound) {
        let ShelfRound { number: _ } = round;
    }
}

impl ColumnCatalog for Shelf {
    fn column(
        &self,
        _round: &ShelfRound,
        _relation: Oid,
        _attribute: AttributeNumber,
    ) -> Option<Column> {
        None
    }
}
