// What is offered to a row table, in words and as the table reads it.
use keys::span::Span;
use offers::offer::{OfferedAttribute, OfferedRow};
use std::fmt;
use type_info::oid::Oid;

// The host's text has so many numbers of four digits, one after the other.
pub const NUMBERS: u16 = 1024;

// A span of the host's text: one of its numbers, or so many bytes from a place on.
#[derive(Clone, Copy)]
pub enum Text {
    Number(u16),
    Bytes(u32, u32),
}

impl Text {
    pub fn span(self) -> Span {
        match self {
            Text::Number(n) => Span {
                start: u32::from(n) * 4,
                length: 4,
            },
            Text::Bytes(start, length) => Span { start, length },
        }
    }
}

impl fmt::Display for Text {
    fn fmt<W: fmt::Write>(&self, f: &mut fmt::Formatter<W>) -> fmt::Result {
        match self {
            Text::Number(n) => write!(f, "{n:04}"),
            Text::Bytes(start, length) => write!(f, "of length {length} at {start}"),
        }
    }
}

// Where a row differs from the plain one.
#[derive(Clone, Copy)]
pub enum Change {
    Nothing,
    Oid(u32),
    Pretty(Text),
    TypType(u8),
    TypCategory(u8),
    TypElem(u32),
    TypBaseType(u32),
    RngSubtype(u32),
    TypArray(u32),
    Label(Text),
    AttributeName(Text),
    AttributeOid(u32),
    // So many labels and so many attributes, all alike.
    Parts(usize, usize),
}

impl fmt::Display for Change {
    fn fmt<W: fmt::Write>(&self, f: &mut fmt::Formatter<W>) -> fmt::Result {
        match self {
            Change::Nothing => Ok(()),
            Change::Oid(oid) => write!(f, ", OID {oid}"),
            Change::Pretty(text) => write!(f, ", pretty name {text}"),
            Change::TypType(byte) => write!(f, ", typtype {}", char::from(*byte)),
            Change::TypCategory(byte) => write!(f, ", typcategory {}", char::from(*byte)),
            Change::TypElem(oid) => write!(f, ", typelem {oid}"),
            Change::TypBaseType(oid) => write!(f, ", typbasetype {oid}"),
            Change::RngSubtype(oid) => write!(f, ", rngsubtype {oid}"),
            Change::TypArray(oid) => write!(f, ", typarray {oid}"),
            Change::Label(text) => write!(f, ", label {text}"),
            Change::AttributeName(text) => write!(f, ", attribute name {text}"),
            Change::AttributeOid(oid) => write!(f, ", attribute OID {oid}"),
            Change::Parts(labels, attributes) => {
                write!(f, ", labels {labels}, attributes {attributes}")
            }
        }
    }
}

#[derive(Clone, Copy)]
pub enum Offer {
    Row(u16, Change),
    Name(Text, u32),
    // Of a relation, by attribute number: the relation's table and the column's name.
    Column(u32, i16, Text, Text),
}

impl fmt::Display for Offer {
    fn fmt<W: fmt::Write>(&self, f: &mut fmt::Formatter<W>) -> fmt::Result {
        match self {
            Offer::Row(n, change) => write!(f, "row {n}{change}"),
            Offer::Name(name, oid) => write!(f, "name {name} to {oid}"),
            Offer::Column(relation, attribute, table, name) => {
                write!(
                    f,
                    "column {attribute} of {relation}, table {table}, name {name}"
                )
            }
        }
    }
}

// Offers whose texts are numbers.
pub fn row(n: u16) -> Offer {
    Offer::Row(n, Change::Nothing)
}

pub fn name(n: u16, oid: u32) -> Offer {
    Offer::Name(Text::Number(n), oid)
}

pub fn column(relation: u32, attribute: i16, table: u16, name: u16) -> Offer {
    Offer::Column(relation, attribute, Text::Number(table), Text::Number(name))
}

// A row with room for its labels and attributes.
#[derive(Clone, Copy)]
pub struct RowOffer {
    oid: Oid,
    pretty: Span,
    typtype: u8,
    typcategory: u8,
    typelem: Option<Oid>,
    typbasetype: Option<Oid>,
    rngsubtype: Option<Oid>,
    typarray: Option<Oid>,
    labels: [Span; 65],
    label_count: usize,
    attributes: [OfferedAttribute; 65],
    attribute_count: usize,
}

impl RowOffer {
    // The row of OID n: its pretty name is the number n, and it has a label and an attribute.
    fn plain(n: u16) -> RowOffer {
        let blank = Text::Number(0).span();
        let attribute = OfferedAttribute {
            name: blank,
            oid: Oid(1),
        };
        RowOffer {
            oid: Oid(u32::from(n)),
            pretty: Text::Number(n).span(),
            typtype: b'b',
            typcategory: b'U',
            typelem: None,
            typbasetype: None,
            rngsubtype: None,
            typarray: None,
            labels: [blank; 65],
            label_count: 1,
            attributes: [attribute; 65],
            attribute_count: 1,
        }
    }

    pub fn new(n: u16, change: Change) -> RowOffer {
        let mut row = RowOffer::plain(n);
        match change {
            Change::Nothing => {}
            Change::Oid(oid) => row.oid = Oid(oid),
            Change::Pretty(text) => row.pretty = text.span(),
            Change::TypType(byte) => row.typtype = byte,
            Change::TypCategory(byte) => row.typcategory = byte,
            Change::TypElem(oid) => row.typelem = Some(Oid(oid)),
            Change::TypBaseType(oid) => row.typbasetype = Some(Oid(oid)),
            Change::RngSubtype(oid) => row.rngsubtype = Some(Oid(oid)),
            Change::TypArray(oid) => row.typarray = Some(Oid(oid)),
            Change::Label(text) => row.labels[0] = text.span(),
            Change::AttributeName(text) => row.attributes[0].name = text.span(),
            Change::AttributeOid(oid) => row.attributes[0].oid = Oid(oid),
            Change::Parts(labels, attributes) => {
                row.label_count = labels;
                row.attribute_count = attributes;
            }
        }
        row
    }

    // With 65 labels and 65 attributes at most.
    pub fn offered(&self) -> OfferedRow<'_> {
        OfferedRow {
            oid: self.oid,
            pretty: self.pretty,
            typtype: self.typtype,
            typcategory: self.typcategory,
            typelem: self.typelem,
            typbasetype: self.typbasetype,
            rngsubtype: self.rngsubtype,
            typarray: self.typarray,
            labels: &self.labels[..self.label_count.min(65)],
            attributes: &self.attributes[..self.attribute_count.min(65)],
        }
    }
}
