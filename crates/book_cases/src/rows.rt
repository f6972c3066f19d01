// The rows that are offered.
use crate::offer::{Sort, Texts};
use catalog::row::Row;
use keys::span::Span;
use offers::offer::{OfferedAttribute, OfferedRow};
use offers::rows::read_row;
use type_info::oid::Oid;

fn plain(pretty: Span) -> OfferedRow<'static> {
    OfferedRow {
        oid: Oid(1),
        pretty,
        typtype: b'b',
        typcategory: b'U',
        typelem: None,
        typbasetype: None,
        rngsubtype: None,
        typarray: None,
        labels: &[],
        attributes: &[],
    }
}

// The first 64 at most.
fn labelled(host: &[u8], pretty: Span, labels: Texts) -> Option<Row> {
    let mut spans = [labels.first; 64];
    for (i, span) in spans.iter_mut().enumerate() {
        *span = labels.get(i).unwrap_or(labels.first);
    }
    read_row(
        host,
        OfferedRow {
            typtype: b'e',
            labels: &spans[..labels.count.min(64)],
            ..plain(pretty)
        },
    )
}

fn composed(host: &[u8], pretty: Span, names: Texts, types: &'static [u32]) -> Option<Row> {
    let unused = OfferedAttribute {
        name: names.first,
        oid: Oid(1),
    };
    let mut attributes = [unused; 64];
    for (i, attribute) in attributes.iter_mut().enumerate() {
        if let Some((name, typed)) = Sort::Composite(names, types).attribute(i) {
            *attribute = OfferedAttribute {
                name,
                oid: Oid(typed),
            };
        }
    }
    read_row(
        host,
        OfferedRow {
            typtype: b'c',
            attributes: &attributes[..names.count.min(64)],
            ..plain(pretty)
        },
    )
}

// The row of any OID: it is not part of it.
pub fn row_of(host: &[u8], pretty: Span, sort: Sort) -> Option<Row> {
    let plain = plain(pretty);
    let offered = match sort {
        Sort::Simple => plain,
        Sort::Pseudo => OfferedRow {
            typtype: b'p',
            ..plain
        },
        Sort::Domain(of) => OfferedRow {
            typtype: b'd',
            typbasetype: Some(Oid(of)),
            ..plain
        },
        Sort::Array(of) => OfferedRow {
            typcategory: b'A',
            typelem: Some(Oid(of)),
            ..plain
        },
        Sort::Range(of) => OfferedRow {
            typtype: b'r',
            rngsubtype: Some(Oid(of)),
            ..plain
        },
        Sort::Enum(labels) => return labelled(host, pretty, labels),
        Sort::Composite(names, types) => return composed(host, pretty, names, types),
        Sort::Malformed(typtype, typcategory) => OfferedRow {
            typtype,
            typcategory,
            ..plain
        },
    };
    read_row(host, offered)
}
