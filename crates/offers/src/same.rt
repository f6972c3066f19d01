// Whether two rows tell the same.
ghost use Rattle.std.specs.Prelude.{◌≡◌, Decides};
ghost use Rattle.catalog.specs.Meaning.{row_meaning};
ghost use Rattle.offers.specs.Same.{same_row};

use catalog::row::Row;

#[tactic(auto, using(crate::proofs::Alike::row_alike))]
pub fn same_row(a: &Row, b: &Row) -> bool
    ensures told { result ≡ same_row (row_meaning a.now) (row_meaning b.now) }
    ensures decides { Decides result (row_meaning a.now ≡ row_meaning b.now) }
{
    a == b
}
