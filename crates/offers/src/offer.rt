// A row as a host offers it: its names are spans of the host's text.
use keys::span::Span;
use type_info::oid::Oid;

#[derive(Clone, Copy)]
pub struct OfferedAttribute {
    pub name: Span,
    pub oid: Oid,
}

#[derive(Clone, Copy)]
pub struct OfferedRow<'a> {
    pub oid: Oid,
    pub pretty: Span,
    pub typtype: u8,
    pub typcategory: u8,
    pub typelem: Option<Oid>,
    pub typbasetype: Option<Oid>,
    pub rngsubtype: Option<Oid>,
    pub typarray: Option<Oid>,
    pub labels: &'a [Span],
    pub attributes: &'a [OfferedAttribute],
}
