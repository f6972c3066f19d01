// The shape of a row: its name, what kind of type it tells of, and the OIDs that this kind uses.
ghost use Rattle.std.specs.Prelude.{◌≡◌, [], ◌∷◌, Some, codes, map};
ghost use Rattle.catalog.specs.Few.{standing};
ghost use Rattle.catalog.specs.Meaning.{attribute_meaning, links_told, row_meaning, shape_told};
ghost use Rattle.catalog.specs.Shape.{oids_of, shape};

use crate::codes::{TypCategory, TypType, UnknownCode};
use crate::few::Few;
use crate::row::Row;
use crate::values::{Attribute, ShortName};
use std::error::Error;
use std::fmt;
use type_info::oid::Oid;

// A kind without the OIDs that it uses.
#[derive(Clone, Copy, PartialEq, Eq)]
pub enum Head<'r> {
    Simple,
    Pseudo,
    Domain,
    Array,
    Range,
    Enum(&'r [ShortName]),
    Composite(&'r [Attribute]),
}

#[derive(Clone, Copy, PartialEq, Eq)]
pub struct Shape<'r> {
    pub name: &'r [u8],
    pub head: Head<'r>,
    pub links: Few<Oid, 64>,
}

// A code that is not listed, or the OID missing that the kind needs.
#[derive(Clone, Copy, PartialEq, Eq, Debug)]
pub struct Malformed;

impl From<UnknownCode> for Malformed {
    fn from(_code: UnknownCode) -> Malformed {
        Malformed
    }
}

impl fmt::Display for Malformed {
    ghost output = { λ _. Some (codes "the row is malformed") };

    fn fmt<W: fmt::Write>(&self, f: &mut fmt::Formatter<W>) -> fmt::Result {
        f.write_str("the row is malformed")
    }
}

impl Error for Malformed {}

// The links of a kind that uses one OID.
fn one_link(oid: Oid) -> Few<Oid, 64>
    ensures { links_told result ≡ oid.0 ∷ [] }
{
    let mut links = Few::new(oid);
    links.push(oid);
    links
}

// There are at most 64, so none is refused.
fn oids_of(attributes: &Few<Attribute, 64>) -> Few<Oid, 64>
    ensures { links_told result ≡ oids_of (map attribute_meaning (standing attributes.now)) }
{
    let mut oids = Few::new(Oid(0));
    for attribute in attributes.as_slice() {
        oids.push(attribute.oid);
    }
    oids
}

impl Row {
    // The first line that fits decides. Where the OID is absent that a kind needs, the row is malformed.
    #[tactic(auto, unfolding(crate::specs::Shape::shape))]
    pub fn shape(&self) -> Result<Shape<'_>, Malformed>
        ensures { shape_told result ≡ shape (row_meaning self.now) }
    {
        let typtype = TypType::try_from(self.typtype)?;
        let category = TypCategory::try_from(self.typcategory)?;
        let no_links = Few::new(Oid(0));
        let (head, links) = match (typtype, category) {
            (TypType::Domain, _) if let Some(base) = self.typbasetype => {
                (Head::Domain, one_link(base))
            }
            (TypType::Base, TypCategory::Array) if let Some(element) = self.typelem => {
                (Head::Array, one_link(element))
            }
            (TypType::Pseudo, _) => (Head::Pseudo, no_links),
            (TypType::Range, _) if let Some(subtype) = self.rngsubtype => {
                (Head::Range, one_link(subtype))
            }
            (TypType::Enum, _) => (Head::Enum(self.labels.as_slice()), no_links),
            (TypType::Composite, _) => (
                Head::Composite(self.attributes.as_slice()),
                oids_of(&self.attributes),
            ),
            (TypType::Domain | TypType::Range, _) | (TypType::Base, TypCategory::Array) => {
                return Err(Malformed);
            }
            (TypType::Base, _) => (Head::Simple, no_links),
        };
        Ok(Shape {
            name: self.pretty.get(),
            head,
            links,
        })
    }
}
