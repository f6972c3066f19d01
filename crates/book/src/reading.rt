// What a book answers for an OID, a name, an element and an attribute of a relation.
ghost use Rattle.std.specs.Prelude.{◌≡◌, length, Some};
ghost use Rattle.std.specs.Option.{option_map};
ghost use Rattle.book.specs.Book.{held_of};
ghost use Rattle.book.specs.Held.{book_held};
ghost use Rattle.book.specs.Settled.{bytes_at, column_text_told, settled_told, settled_tree, tree_told};
ghost use Rattle.catalog.specs.Meaning.{oid_told};
ghost use Rattle.life.specs.Steps.{answer};

use crate::settled::{Settled, Slot};
use crate::tables::Book;
use keys::kinds::Attribute;
use keys::span::Span;
use type_info::builtin;
use type_info::oid::{AttributeNumber, Oid};

// A column, in the book's own text.
#[derive(Clone, Copy, Debug)]
pub struct ColumnText<'b> {
    pub table: &'b [u8],
    pub name: &'b [u8],
}

impl<'a> Book<'a> {
    // The settled type of an OID: the built-in type, or else the one that the book describes.
    pub fn describe(&self, oid: Oid) -> Option<Settled>
        ensures tree { option_map (settled_tree (held_of self.now)) result
            ≡ option_map (λ t. Some t) (answer (book_held (held_of self.now)) oid.0) }
        ensures told { option_map (settled_told (held_of self.now)) result
            ≡ option_map tree_told (answer (book_held (held_of self.now)) oid.0) }
    {
        match builtin::by_oid(oid) {
            Some(built_in) => Some(Settled::BuiltIn(built_in)),
            None => Some(Settled::Described(Slot(self.index.find(oid)?))),
        }
    }

    pub fn oid_of(&self, name: &[u8]) -> Option<Oid>
        ensures { oid_told result ≡ (book_held (held_of self.now)).names name.now }
    {
        self.names.find(name)
    }

    // The array type over an element.
    pub fn array_of(&self, element: Oid) -> Option<Oid>
        ensures { oid_told result ≡ (book_held (held_of self.now)).arrays element.0 }
    {
        self.arrays.find(element)
    }

    // The text under a span: nothing where the span lies outside the text.
    pub(crate) fn text_at(&self, span: Span) -> Option<&[u8]>
        ensures { option_map (λ x. x.now) result ≡ bytes_at self.now.names.text.text span }
    {
        let start = span.start as usize;
        let end = start + span.length as usize;
        self.names.text().get(start..end)
    }

    // The names of an attribute of a relation.
    pub fn column(&self, relation: Oid, attribute: AttributeNumber) -> Option<ColumnText<'_>>
        ensures { option_map column_text_told result ≡ (book_held (held_of self.now)).columns relation.0 attribute.0 }
    {
        let column = self.columns.find(Attribute {
            relation,
            number: attribute,
        })?;
        let table = self.text_at(column.table)?;
        let name = self.text_at(column.name)?;
        Some(ColumnText { table, name })
    }
}
