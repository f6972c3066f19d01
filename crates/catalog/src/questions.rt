// A catalog by its meaning: rounds that cost an allowance, and the questions that an open round allows.
ghost use Rattle.std.specs.Prelude.{◌≡◌, IfSome, Some, MatchResult, codes};
ghost use Rattle.catalog.specs.Catalog.{Catalog, Grows, Laws, Opened, Shut};
ghost use Rattle.catalog.specs.Meaning.{column_told, oid_told, row_meaning, row_told};

use crate::row::Row;
use crate::values::Column;
use std::error::Error;
use std::fmt;
use type_info::oid::{AttributeNumber, Oid};

// The allowance is 0, so no round opens.
#[derive(Clone, Copy, PartialEq, Eq, Debug)]
pub struct NoAllowance;

impl fmt::Display for NoAllowance {
    ghost output = { λ _. Some (codes "no round is left in the allowance") };

    fn fmt<W: fmt::Write>(&self, f: &mut fmt::Formatter<W>) -> fmt::Result {
        f.write_str("no round is left in the allowance")
    }
}

impl Error for NoAllowance {}

pub trait TypeCatalog {
    // An open round. It can only be given back to the catalog that opened it.
    type Round;

    // What the catalog holds, columns included.
    ghost meaning: { Self → Catalog };

    // What every catalog keeps.
    ghost laws: { (c : Self) → Laws (meaning c) };

    fn open(&mut self) -> Result<Self::Round, NoAllowance>
        ensures { MatchResult result (λ _. Opened (meaning self.old) (meaning self.new)) (λ _. Shut (meaning self.old) (meaning self.new)) };

    fn row(&self, round: &Self::Round, oid: Oid) -> Option<Row>
        ensures { row_told result ≡ (meaning self.now).rows oid.0 };

    fn oid_of(&self, round: &Self::Round, name: &[u8]) -> Option<Oid>
        ensures { oid_told result ≡ (meaning self.now).named name.now };

    fn close(&mut self, round: Self::Round)
        ensures { meaning self.new ≡ meaning self.old };
}

pub trait ColumnCatalog: TypeCatalog {
    fn column(
        &self,
        round: &Self::Round,
        relation: Oid,
        attribute: AttributeNumber,
    ) -> Option<Column>
        ensures { column_told result ≡ (Self.TypeCatalog.meaning self.now).columns relation.0 attribute.0 };
}

// Growth goes on from step to step, and a round that is opened alters nothing that is held.
pub fn growth_goes_on()
    ensures chain { (a b c : Catalog) → Grows a b → Grows b c → Grows a c }
    ensures round { (a b : Catalog) → Opened a b → Grows a b }
{}

// The row of an OID, whose pretty name leads back to it.
pub fn named_row<C: TypeCatalog>(catalog: &C, round: &C::Round, oid: Oid) -> Option<Row>
    ensures answer { row_told result ≡ (C.meaning catalog.now).rows oid.0 }
    ensures back { IfSome result (λ k. (C.meaning catalog.now).named (row_meaning k).pretty ≡ Some oid.0) }
{
    catalog.row(round, oid)
}
