// The entries of a resolve and the fields of a bind.
ghost use Rattle.std.specs.Prelude.{◌≡◌};
ghost use Rattle.keys.specs.Spans.{span_bytes};
ghost use Rattle.life.specs.HostCalls.{inside as lies_inside};

use keys::span::Span;
use type_info::oid::{AttributeNumber, Oid};

#[derive(Clone, Copy, PartialEq, Eq, Debug)]
pub enum TypeAsked {
    Oid(Oid),
    Name(Span),
    // The array of the type of this name.
    ArrayOf(Span),
}

#[derive(Clone, Copy, PartialEq, Eq, Debug)]
pub struct FieldAsked {
    pub name: Span,
    pub oid: Oid,
    pub relation: Option<Oid>,
    pub attribute: Option<AttributeNumber>,
}

// The bytes of a name: of a span that ends past the text, those that are there.
pub fn name_in(host: &[u8], span: Span) -> &[u8]
    ensures { result.now ≡ span_bytes host.now span }
{
    let start = host.len().min(span.start as usize);
    let rest = &host[start..];
    &rest[..rest.len().min(span.length as usize)]
}

// The span ends within the text.
pub(crate) fn inside(host: &[u8], span: Span) -> bool
    ensures { result ≡ lies_inside host.now span }
{
    span.start as usize + span.length as usize <= host.len()
}
