// What a catalog refuses, and what each refusal tells.
ghost use Rattle.std.specs.Prelude.{◌≡◌, Some};
ghost use Rattle.catalog.specs.Faults.{addition_told, fault_text, fault_told, layer_text, table_text};

use std::error::Error;
use std::fmt;
use type_info::oid::Oid;

// The part of the library that refuses.
#[derive(Clone, Copy, PartialEq, Eq, Debug)]
pub enum Layer {
    Call,
    Fill,
    Catalog,
    Columns,
}

// What a caller is told of a refusal.
#[derive(Clone, Copy, PartialEq, Eq, Debug)]
pub struct Told {
    pub number: u8,
    pub place: u32,
    pub layer: Layer,
    pub rounds: u8,
}

// A table of the row table.
#[derive(Clone, Copy, PartialEq, Eq, Debug)]
pub enum HeldIn {
    Rows,
    Names,
    Parts,
    Columns,
}

#[derive(Clone, Copy, PartialEq, Eq, Debug)]
pub enum CatalogFault {
    // This round is to be opened and the allowance is 0.
    NoAllowance { round: u8 },
    // The addition breaks a limit, or a span of it lies outside the host text; its OID, for a column its relation.
    BreaksLimit(Oid),
    // The addition contradicts what is held; its OID, for a column its relation.
    Contradicts(Oid),
    // This table, the first of them, has no room for the addition.
    Full(HeldIn),
}

impl CatalogFault {
    pub fn told(&self) -> Told
        ensures { result ≡ fault_told self.now }
    {
        match *self {
            CatalogFault::NoAllowance { round } => Told {
                number: 5,
                place: u32::from(round),
                layer: Layer::Catalog,
                rounds: round.saturating_sub(1),
            },
            CatalogFault::BreaksLimit(of) => addition(11, of.0),
            CatalogFault::Contradicts(of) => addition(12, of.0),
            CatalogFault::Full(table) => addition(13, table as u32),
        }
    }
}

impl fmt::Display for Layer {
    ghost output = { λ layer. Some (layer_text layer) };

    fn fmt<W: fmt::Write>(&self, f: &mut fmt::Formatter<W>) -> fmt::Result {
        f.write_str(match self {
            Layer::Call => "call",
            Layer::Fill => "fill",
            Layer::Catalog => "catalog",
            Layer::Columns => "columns",
        })
    }
}

impl fmt::Display for HeldIn {
    ghost output = { λ table. Some (table_text table) };

    fn fmt<W: fmt::Write>(&self, f: &mut fmt::Formatter<W>) -> fmt::Result {
        f.write_str(match self {
            HeldIn::Rows => "rows",
            HeldIn::Names => "names",
            HeldIn::Parts => "parts",
            HeldIn::Columns => "columns",
        })
    }
}

impl fmt::Display for CatalogFault {
    ghost output = { λ fault. Some (fault_text fault) };

    fn fmt<W: fmt::Write>(&self, f: &mut fmt::Formatter<W>) -> fmt::Result {
        match self {
            CatalogFault::NoAllowance { round } => write!(f, "no allowance for round {round}"),
            CatalogFault::BreaksLimit(of) => write!(f, "{} breaks a limit", of.0),
            CatalogFault::Contradicts(of) => write!(f, "{} contradicts what is held", of.0),
            CatalogFault::Full(table) => write!(f, "no room among the {table}"),
        }
    }
}

impl Error for CatalogFault {}

// An addition opens no round.
fn addition(number: u8, place: u32) -> Told
    ensures { result ≡ addition_told number place }
{
    Told {
        number,
        place,
        layer: Layer::Catalog,
        rounds: 0,
    }
}
