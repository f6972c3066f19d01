// What is added to a book. Its texts are spans of the host's text.
use book::settled::TypeKind;
use book::sizes::Sizes;
use keys::span::Span;

// The host's text has so many numbers of four digits, one after the other.
pub const NUMBERS: u32 = 1200;

pub const EMPTY: Span = Span {
    start: 0,
    length: 0,
};

pub fn number(n: u32) -> Span {
    long(n, 4)
}

// So many bytes from a number on.
pub fn long(n: u32, length: u32) -> Span {
    Span {
        start: n.saturating_mul(4),
        length,
    }
}

pub fn text_at(host: &[u8], span: Span) -> &[u8] {
    let start = span.start as usize;
    host.get(start..start + span.length as usize).unwrap_or(&[])
}

// So many texts of one length, each so many bytes behind the one before it.
#[derive(Clone, Copy, PartialEq, Eq, Debug)]
pub struct Texts {
    pub first: Span,
    pub stride: u32,
    pub count: usize,
}

impl Texts {
    // Nothing past the last.
    pub fn get(self, i: usize) -> Option<Span> {
        if i >= self.count {
            return None;
        }
        let behind = u32::try_from(i).ok()?.saturating_mul(self.stride);
        Some(Span {
            start: self.first.start.saturating_add(behind),
            length: self.first.length,
        })
    }

    fn bytes(self) -> usize {
        self.count.saturating_mul(self.first.length as usize)
    }
}

// So many numbers from n on.
pub fn numbers(n: u32, count: usize) -> Texts {
    Texts {
        first: number(n),
        stride: 4,
        count,
    }
}

// What a row tells of its type.
#[derive(Clone, Copy, PartialEq, Eq, Debug)]
pub enum Sort {
    Simple,
    Pseudo,
    Domain(u32),
    Array(u32),
    Range(u32),
    Enum(Texts),
    // The attributes are of these types, one after the other and then again.
    Composite(Texts, &'static [u32]),
    // A row that is malformed for these two codes, since it has no OID that its kind may need.
    Malformed(u8, u8),
}

impl Sort {
    pub fn kind(self) -> Option<TypeKind> {
        match self {
            Sort::Simple => Some(TypeKind::Simple),
            Sort::Pseudo => Some(TypeKind::Pseudo),
            Sort::Domain(_) => Some(TypeKind::Domain),
            Sort::Array(_) => Some(TypeKind::Array),
            Sort::Range(_) => Some(TypeKind::Range),
            Sort::Enum(_) => Some(TypeKind::Enum),
            Sort::Composite(..) => Some(TypeKind::Composite),
            Sort::Malformed(..) => None,
        }
    }

    pub fn label(self, i: usize) -> Option<Span> {
        match self {
            Sort::Enum(labels) => labels.get(i),
            _ => None,
        }
    }

    pub fn attribute(self, i: usize) -> Option<(Span, u32)> {
        match self {
            Sort::Composite(names, types) => {
                let typed = types.get(i % types.len().max(1))?;
                Some((names.get(i)?, *typed))
            }
            _ => None,
        }
    }

    pub fn component(self, i: usize) -> Option<u32> {
        match self {
            Sort::Domain(of) | Sort::Array(of) | Sort::Range(of) => (i == 0).then_some(of),
            _ => Some(self.attribute(i)?.1),
        }
    }

    pub fn element(self) -> Option<u32> {
        match self {
            Sort::Array(of) => Some(of),
            _ => None,
        }
    }

    // How many labels, attributes or components it has.
    pub fn count(self) -> usize {
        match self {
            Sort::Simple | Sort::Pseudo | Sort::Malformed(..) => 0,
            Sort::Domain(_) | Sort::Array(_) | Sort::Range(_) => 1,
            Sort::Enum(texts) | Sort::Composite(texts, _) => texts.count,
        }
    }

    fn size(self) -> Sizes {
        match self {
            Sort::Enum(texts) | Sort::Composite(texts, _) => Sizes {
                parts: texts.count,
                text: texts.bytes(),
                ..Sizes::NONE
            },
            _ => Sizes::NONE,
        }
    }
}

#[derive(Clone, Copy, PartialEq, Eq, Debug)]
pub enum Offer {
    // The row of an OID: its pretty name, and what it tells.
    Row(u32, Span, Sort),
    Name(Span, u32),
    // Of an element.
    Array(u32, u32),
    // Of a relation, by attribute number: the relation's table and the column's name.
    Column(u32, i16, Span, Span),
}

impl Offer {
    // How much it takes in a book that holds the table of its relation, if it is a column, or does not.
    pub fn size(self, related: bool) -> Sizes {
        match self {
            Offer::Row(_, name, sort) => {
                let parts = sort.size();
                Sizes {
                    descriptors: 1,
                    text: parts.text.saturating_add(name.length as usize),
                    ..parts
                }
            }
            Offer::Name(name, _) => Sizes {
                names: 1,
                text: name.length as usize,
                ..Sizes::NONE
            },
            Offer::Array(..) => Sizes {
                arrays: 1,
                ..Sizes::NONE
            },
            Offer::Column(_, _, table, name) => {
                let told = if related { EMPTY } else { table };
                Sizes {
                    text: told.length as usize + name.length as usize,
                    columns: 1,
                    relations: usize::from(!related),
                    ..Sizes::NONE
                }
            }
        }
    }

    // Whether both are asked for alike, in a host's text.
    pub fn is_like(self, other: Offer, host: &[u8]) -> bool {
        match (self, other) {
            (Offer::Row(a, ..), Offer::Row(b, ..)) => a == b,
            (Offer::Name(a, _), Offer::Name(b, _)) => text_at(host, a) == text_at(host, b),
            (Offer::Array(a, _), Offer::Array(b, _)) => a == b,
            (Offer::Column(a, i, ..), Offer::Column(b, j, ..)) => a == b && i == j,
            _ => false,
        }
    }
}

// Offers whose texts are numbers.
pub fn row(oid: u32, sort: Sort) -> Offer {
    Offer::Row(oid, number(oid % 1000), sort)
}

pub fn simple(oid: u32) -> Offer {
    row(oid, Sort::Simple)
}

pub fn labelled(oid: u32, labels: usize) -> Offer {
    row(oid, Sort::Enum(numbers(0, labels)))
}

pub fn composed(oid: u32, attributes: usize, types: &'static [u32]) -> Offer {
    row(oid, Sort::Composite(numbers(0, attributes), types))
}

pub fn name(n: u32, oid: u32) -> Offer {
    Offer::Name(number(n), oid)
}

pub fn column(relation: u32, attribute: i16, table: u32, name: u32) -> Offer {
    Offer::Column(relation, attribute, number(table), number(name))
}
