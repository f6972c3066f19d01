// The row of a built-in type.
ghost use Rattle.std.specs.Prelude.{◌≡◌};
ghost use Rattle.catalog.specs.Meaning.{oid_told};
ghost use Rattle.shelf.specs.Rows.{category_byte, element_oid, subtype_oid, typtype_byte};
ghost use Rattle.std.specs.Option.{option_map};
ghost use Rattle.type_info.specs.Meaning.{kind_of};
ghost use Rattle.type_info.specs.Table.{array_of};

use type_info::builtin::{BuiltInKind, array_of};
use type_info::oid::Oid;

pub fn typtype(kind: BuiltInKind) -> u8
    ensures { result ≡ typtype_byte (kind_of kind) }
{
    match kind {
        BuiltInKind::Range(_) => b'r',
        BuiltInKind::Pseudo => b'p',
        BuiltInKind::Simple | BuiltInKind::Array(_) => b'b',
    }
}

pub fn typcategory(kind: BuiltInKind) -> u8
    ensures { result ≡ category_byte (kind_of kind) }
{
    match kind {
        BuiltInKind::Array(_) => b'A',
        BuiltInKind::Simple | BuiltInKind::Pseudo | BuiltInKind::Range(_) => b'U',
    }
}

pub fn typelem(kind: BuiltInKind) -> Option<Oid>
    ensures { oid_told result ≡ element_oid (kind_of kind) }
{
    match kind {
        BuiltInKind::Array(element) => Some(element),
        BuiltInKind::Simple | BuiltInKind::Pseudo | BuiltInKind::Range(_) => None,
    }
}

pub fn rngsubtype(kind: BuiltInKind) -> Option<Oid>
    ensures { oid_told result ≡ subtype_oid (kind_of kind) }
{
    match kind {
        BuiltInKind::Range(subtype) => Some(subtype),
        BuiltInKind::Simple | BuiltInKind::Pseudo | BuiltInKind::Array(_) => None,
    }
}

pub fn typarray(oid: Oid) -> Option<Oid>
    ensures { oid_told result ≡ option_map (λ e. e.oid) (array_of oid.0) }
{
    array_of(oid).map(|array| array.oid())
}
