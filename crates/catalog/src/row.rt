// A row of pg_type with what belongs to it of pg_range, pg_enum and pg_attribute. The OID that it is the row of is not
// part of it.
ghost use Rattle.std.specs.Prelude.{◌≡◌, true};
ghost use Rattle.catalog.specs.Few.{standing};
ghost use Rattle.catalog.specs.Limits.{all_typed, nonzero};

use crate::few::Few;
use crate::values::{Attribute, LongName, ShortName};
use type_info::oid::Oid;

#[derive(Clone, Copy, PartialEq, Eq)]
pub struct Row {
    pub pretty: LongName,
    pub typtype: u8,
    pub typcategory: u8,
    pub typelem: Option<Oid>,
    pub typbasetype: Option<Oid>,
    pub rngsubtype: Option<Oid>,
    pub typarray: Option<Oid>,
    pub labels: Few<ShortName, 64>,
    pub attributes: Few<Attribute, 64>,
    ghost element: { nonzero typelem ≡ true },
    ghost base: { nonzero typbasetype ≡ true },
    ghost subtype: { nonzero rngsubtype ≡ true },
    ghost array: { nonzero typarray ≡ true },
    ghost typed: { all_typed (standing attributes) ≡ true },
}
