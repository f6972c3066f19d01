// The built-in types and their look-ups.
ghost use Rattle.std.specs.Prelude.{◌≡◌, map, length};
ghost use Rattle.type_info.specs.Laws.{TableLaws};
ghost use Rattle.type_info.specs.Meaning.{Lists, entry_of, found, kind_of};
ghost use Rattle.type_info.specs.Table.{array_of, by_name, by_oid, element_of_kind, entries};

use crate::oid::Oid;
use crate::table::{COUNT, TABLE};

#[derive(Clone, Copy, PartialEq, Eq, Debug)]
pub enum BuiltInKind {
    Simple,
    Pseudo,
    Array(Oid),
    Range(Oid),
}

// A settled type that every catalog knows: its OID, its name and its kind.
#[derive(Clone, Copy, Debug)]
pub struct BuiltIn(
    pub(crate) Oid,
    pub(crate) &'static [u8],
    pub(crate) BuiltInKind,
);

impl BuiltIn {
    pub fn oid(self) -> Oid
        ensures { result.0 ≡ (entry_of self).oid }
    {
        self.0
    }

    pub fn name(self) -> &'static [u8]
        ensures { result.now ≡ (entry_of self).name }
    {
        self.1
    }

    pub fn kind(self) -> BuiltInKind
        ensures { kind_of result ≡ (entry_of self).kind }
    {
        self.2
    }

    // The element type of an array.
    pub fn element(self) -> Option<BuiltIn>
        ensures { found result ≡ element_of_kind (entry_of self).kind }
    {
        match self.2 {
            BuiltInKind::Array(element) => by_oid(element),
            BuiltInKind::Simple | BuiltInKind::Pseudo | BuiltInKind::Range(_) => None,
        }
    }
}

// The constant is the list of the definitions, entry by entry.
fn constant() -> &'static [BuiltIn]
    ensures { map entry_of result.now ≡ entries }
{
    &TABLE
}

// The table, by rising OID.
pub fn table() -> &'static [BuiltIn]
    ensures len { length result.now ≡ 92 }
    ensures places { Lists result.now }
{
    constant()
}

// How many built-in types there are, and what holds of all of them together.
pub fn count() -> usize
    ensures len { result ≡ length entries }
    ensures laws { TableLaws }
{
    COUNT
}

pub fn by_oid(oid: Oid) -> Option<BuiltIn>
    ensures { found result ≡ by_oid oid.0 }
{
    let entries = table();
    let place = entries.binary_search_by(|entry| entry.0.cmp(&oid)).ok()?;
    Some(entries[place])
}

pub fn by_name(name: &[u8]) -> Option<BuiltIn>
    ensures { found result ≡ by_name name.now }
{
    table().iter().find(|entry| entry.1 == name).copied()
}

// The array type over an element type.
pub fn array_of(element: Oid) -> Option<BuiltIn>
    ensures { found result ≡ array_of element.0 }
{
    let over = BuiltInKind::Array(element);
    table().iter().find(|entry| entry.2 == over).copied()
}
