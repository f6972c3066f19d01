// What the rounds of types refuse, and what each refusal tells.
ghost use Rattle.std.specs.Prelude.{◌≡◌, Some};
ghost use Rattle.life.specs.Faults.{of_layer_fill as fill_layer};
ghost use Rattle.faults.specs.Faults.{fill_text, refusal_of};
ghost use Rattle.faults.specs.declared.fill.FillFault.TheVariants.{Catalog as OfCatalog};

use book::sizes::BookTable;
use catalog::faults::{CatalogFault, Layer, Told};
use std::error::Error;
use std::fmt;
use type_info::oid::Oid;

// The last round that a step may open.
pub const MOST_ROUNDS: u8 = 64;

#[derive(Clone, Copy, PartialEq, Eq, Debug)]
pub enum FillFault {
    Catalog(CatalogFault),
    // OIDs wait for a round behind the last.
    TooManyRounds,
    // The row of this OID, read in this round, is malformed.
    Malformed { oid: Oid, round: u8 },
    // In this round this OID waits, and no more rows may be read.
    TooManyRows { oid: Oid, round: u8 },
    // After these rounds this table, the first of them, has no room for what was found.
    Full { table: BookTable, rounds: u8 },
    // After these rounds the OID at this place of the list has a row and no unfolding.
    Unresolved { place: u32, rounds: u8 },
}

impl From<CatalogFault> for FillFault {
    ghost from_gives = { λ fault r. r ≡ OfCatalog fault };

    fn from(fault: CatalogFault) -> FillFault {
        FillFault::Catalog(fault)
    }
}

impl FillFault {
    pub fn told(&self) -> Told
        ensures { result ≡ refusal_of self.now }
    {
        match *self {
            FillFault::Catalog(fault) => fault.told(),
            FillFault::TooManyRounds => of_layer_fill(4, u32::from(MOST_ROUNDS) + 1, MOST_ROUNDS),
            FillFault::Malformed { oid, round } => of_layer_fill(6, oid.0, round),
            FillFault::TooManyRows { oid, round } => of_layer_fill(7, oid.0, round),
            FillFault::Full { table, rounds } => of_layer_fill(8, table as u32, rounds),
            FillFault::Unresolved { place, rounds } => of_layer_fill(9, place, rounds),
        }
    }
}

impl fmt::Display for FillFault {
    ghost output = { λ fault. Some (fill_text fault) };

    fn fmt<W: fmt::Write>(&self, f: &mut fmt::Formatter<W>) -> fmt::Result {
        match self {
            FillFault::Catalog(fault) => write!(f, "{fault}"),
            FillFault::TooManyRounds => write!(f, "too many rounds"),
            FillFault::Malformed { oid, round: _ } => {
                write!(f, "the row of {} is malformed", oid.0)
            }
            FillFault::TooManyRows { oid, round: _ } => {
                write!(f, "too many rows: {} is left", oid.0)
            }
            FillFault::Full { table, rounds: _ } => { write!(f, "table {} is full", *table as u32) }
            FillFault::Unresolved { place, rounds: _ } => {
                write!(f, "entry {place} has a row and no unfolding")
            }
        }
    }
}

impl Error for FillFault {}

fn of_layer_fill(number: u8, place: u32, rounds: u8) -> Told
    ensures { result ≡ fill_layer number place rounds }
{
    Told {
        number,
        place,
        layer: Layer::Fill,
        rounds,
    }
}
