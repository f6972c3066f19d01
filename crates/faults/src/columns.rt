// What a column round refuses.
ghost use Rattle.std.specs.Prelude.{◌≡◌, Some};
ghost use Rattle.faults.specs.Faults.{columns_refusal_of, columns_text};
ghost use Rattle.faults.specs.declared.columns.ColumnsFault.TheVariants.{Catalog as OfCatalog};

use book::sizes::BookTable;
use catalog::faults::{CatalogFault, Layer, Told};
use std::error::Error;
use std::fmt;

#[derive(Clone, Copy, PartialEq, Eq, Debug)]
pub enum ColumnsFault {
    Catalog(CatalogFault),
    // After these rounds this table, the first of them, has no room for the columns found.
    Full { table: BookTable, rounds: u8 },
}

impl From<CatalogFault> for ColumnsFault {
    ghost from_gives = { λ fault r. r ≡ OfCatalog fault };

    fn from(fault: CatalogFault) -> ColumnsFault {
        ColumnsFault::Catalog(fault)
    }
}

impl ColumnsFault {
    // What the catalog refused is told as of this layer.
    pub fn told(&self) -> Told
        ensures { result ≡ columns_refusal_of self.now }
    {
        match *self {
            ColumnsFault::Catalog(fault) => Told {
                layer: Layer::Columns,
                ..fault.told()
            },
            ColumnsFault::Full { table, rounds } => Told {
                number: 8,
                place: table as u32,
                layer: Layer::Columns,
                rounds,
            },
        }
    }
}

impl fmt::Display for ColumnsFault {
    ghost output = { λ fault. Some (columns_text fault) };

    fn fmt<W: fmt::Write>(&self, f: &mut fmt::Formatter<W>) -> fmt::Result {
        match self {
            ColumnsFault::Catalog(fault) => write!(f, "columns: {fault}"),
            ColumnsFault::Full { table, rounds: _ } => {
                write!(f, "columns: table {} is full", *table as u32)
            }
        }
    }
}

impl Error for ColumnsFault {}
