// A book's tables, and what holds of them at all times.
ghost use Rattle.book.specs.Tables.{Inside, Sound};

use crate::descriptor::{ColumnNames, Descriptor, Part};
use indexes::names::NameIndex;
use indexes::whole::{AttributeIndex, OidIndex};
use keys::span::Span;
use slots::stack::Stack;
use type_info::oid::Oid;

// All names lie in the text of `names`. The table of a relation is laid there once, for all its columns.
#[derive(Drop)]
pub struct Book<'a> {
    pub(crate) descriptors: Stack<'a, Descriptor>,
    pub(crate) index: OidIndex<'a, u32>,
    pub(crate) parts: Stack<'a, Part>,
    pub(crate) names: NameIndex<'a, Oid>,
    pub(crate) arrays: OidIndex<'a, Oid>,
    pub(crate) columns: AttributeIndex<'a, ColumnNames>,
    pub(crate) relations: OidIndex<'a, Span>,
    ghost inside: { Inside descriptors index parts names arrays columns relations },
    ghost sound: { Sound descriptors index parts names arrays columns relations },
}
