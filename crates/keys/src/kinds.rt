// The three kinds of key: an OID, an attribute of a relation, and a name.
ghost use Rattle.std.specs.Prelude.{◌≡◌, ℕ, List, Decides, nat_eq, refl};
ghost use Rattle.keys.specs.Kinds.{bytes_laws, oid-laws, pair-laws};
ghost use Rattle.keys.specs.Senses.{Pair, bytes_digest, finished, folded_sign, mixed, name_bytes, oid_digest, oid_of, pair_digest, pair_of, same_pair};
ghost use Rattle.keys.specs.Spans.{span_bytes, span_end};
ghost use Rattle.std.specs.Str.{bytes_eq};

use crate::key::{Key, WholeKey};
use crate::span::Span;
use type_info::oid::{AttributeNumber, Oid};

const SEED: u32 = 2166136261;

// One more number into a hash (the step of FNV-1a).
fn mix(hash: u32, number: u32) -> u32
    ensures { result ≡ mixed hash number }
{
    (hash ^ number).wrapping_mul(16777619)
}

// Spreads what the high bits know over the low ones, which choose the slot.
fn finish(hash: u32) -> u32
    ensures { result ≡ finished hash }
{
    let folded = (hash ^ (hash >> 16)).wrapping_mul(2246822507);
    folded ^ (folded >> 13)
}

impl Key for Oid {
    type Stored = Oid;

    ghost Sense = { ℕ };

    ghost means = { oid_of };

    ghost stands = { λ _. oid_of };

    ghost alike = { nat_eq };

    ghost digest = { oid_digest };

    ghost laws = { oid-laws };

    fn matches(&self, stored: Oid, _text: &[u8]) -> bool {
        *self == stored
    }

    fn hash(&self) -> u32 {
        finish(mix(SEED, self.0))
    }
}

impl WholeKey for Oid {
    ghost whole = { λ _. (refl, refl) };
}

// An attribute of a relation. Attribute numbers below 0 are the system's.
#[derive(Clone, Copy, PartialEq, Eq, Debug)]
pub struct Attribute {
    pub relation: Oid,
    pub number: AttributeNumber,
}

// A number for each attribute number, with a sign or without.
fn fold_sign(number: i16) -> u32
    ensures { result ≡ folded_sign number }
{
    let twice = u32::from(number.unsigned_abs()) * 2;
    if number < 0 { twice - 1 } else { twice }
}

impl Key for Attribute {
    type Stored = Attribute;

    ghost Sense = { Pair };

    ghost means = { pair_of };

    ghost stands = { λ _. pair_of };

    ghost alike = { same_pair };

    ghost digest = { pair_digest };

    ghost laws = { pair-laws };

    fn matches(&self, stored: Attribute, _text: &[u8]) -> bool {
        *self == stored
    }

    fn hash(&self) -> u32 {
        finish(mix(mix(SEED, self.relation.0), fold_sign(self.number.0)))
    }
}

impl WholeKey for Attribute {
    ghost whole = { λ _. (refl, refl) };
}

// A name to look up; stored it is a span of the text.
#[derive(Clone, Copy, PartialEq, Eq, Debug)]
pub struct Name<'a>(pub &'a [u8]);

impl Key for Name<'_> {
    type Stored = Span;

    ghost Sense = { List ℕ };

    ghost means = { name_bytes };

    ghost stands = { span_bytes };

    ghost alike = { bytes_eq };

    ghost extent = { span_end };

    ghost digest = { bytes_digest };

    ghost laws = { bytes_laws };

    fn matches(&self, stored: Span, text: &[u8]) -> bool {
        let start = stored.start as usize;
        let end = start + stored.length as usize;
        &text[start..end] == self.0
    }

    fn hash(&self) -> u32 {
        let mixed = self.0.iter().fold(SEED, |hash, b| mix(hash, u32::from(*b)));
        finish(mixed)
    }
}
