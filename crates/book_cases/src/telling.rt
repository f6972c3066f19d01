// Whether a book tells of a type what it has to.
use crate::offer::{Sort, text_at};
use book::settled::Settled;
use book::tables::Book;
use keys::span::Span;
use type_info::builtin;
use type_info::oid::Oid;

fn tells_component(book: &Book<'_>, settled: Option<Settled>, expected: Option<u32>) -> bool {
    match (settled, expected) {
        (None, None) => true,
        (Some(settled), Some(oid)) => book.oid(settled) == Some(Oid(oid)),
        _ => false,
    }
}

fn tells_attribute(
    book: &Book<'_>,
    host: &[u8],
    settled: Settled,
    i: usize,
    expected: Option<(Span, u32)>,
) -> bool {
    match (book.attribute(settled, i), expected) {
        (None, None) => true,
        (Some(attribute), Some((name, typed))) => {
            attribute.name == text_at(host, name)
                && tells_component(book, Some(attribute.typed), Some(typed))
        }
        _ => false,
    }
}

// The i-th label, attribute and component.
fn tells_place(book: &Book<'_>, host: &[u8], settled: Settled, sort: Sort, i: usize) -> bool {
    let label = sort.label(i).map(|label| text_at(host, label));
    book.label(settled, i) == label
        && tells_attribute(book, host, settled, i, sort.attribute(i))
        && tells_component(book, book.component(settled, i), sort.component(i))
}

// Those that there are, those behind them, and one far behind.
fn tells_places(book: &Book<'_>, host: &[u8], settled: Settled, sort: Sort) -> bool {
    (0..sort.count().saturating_add(2)).all(|i| tells_place(book, host, settled, sort, i))
        && tells_place(book, host, settled, sort, usize::MAX)
}

// Whether the settled type is that of a row.
pub fn tells(
    book: &Book<'_>,
    host: &[u8],
    settled: Settled,
    oid: u32,
    name: &[u8],
    sort: Sort,
) -> bool {
    book.oid(settled) == Some(Oid(oid))
        && book.name(settled) == Some(name)
        && book.kind(settled) == sort.kind()
        && tells_component(book, book.element(settled), sort.element())
        && tells_places(book, host, settled, sort)
}

// Whether the settled type is of no slot of the book.
pub fn tells_nothing(book: &Book<'_>, settled: Settled) -> bool {
    book.oid(settled).is_none()
        && book.name(settled).is_none()
        && book.kind(settled).is_none()
        && book.element(settled).is_none()
        && tells_places(book, &[], settled, Sort::Simple)
}

// Whether an OID that is not described is known only as far as it is built in.
pub fn is_undescribed(book: &Book<'_>, oid: u32) -> bool {
    match book.describe(Oid(oid)) {
        Some(Settled::BuiltIn(built_in)) => built_in.oid() == Oid(oid) && book.knows(Oid(oid)),
        Some(Settled::Described(_)) => false,
        None => builtin::by_oid(Oid(oid)).is_none() && !book.knows(Oid(oid)),
    }
}
