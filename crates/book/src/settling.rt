// How the row of an OID becomes its descriptor.
ghost use Rattle.std.specs.Prelude.{◌≡◌, ◌≤◌, if◌then◌else◌, true, false, is_some, length, map, slice_get, option_and_then, MatchOption, Some};
ghost use Rattle.std.specs.List.{list_all};
ghost use Rattle.book.specs.Adding.{KindLaid, PartsOf, attribute_members, component_for, is_known, label_members, row_members, settles, settles_so, size_of_parts, size_of_row, size_of_shape, with_row};
ghost use Rattle.book.specs.Book.{held_of};
ghost use Rattle.book.specs.Held.{FewOf, Fits, book_held, size_of_members, sum_of, with_members};
ghost use Rattle.book.specs.Sizes.{sizes_told};
ghost use Rattle.book.specs.Stands.{RoomForRow, Stands, one_row, row_tree};
ghost use Rattle.catalog.specs.Catalog.{Catalog};
ghost use Rattle.catalog.specs.Few.{standing};
ghost use Rattle.catalog.specs.Meaning.{attribute_meaning, head_meaning, links_told, row_meaning, shape_meaning, text_of};
ghost use Rattle.catalog.specs.Shape.{names_of, shape as shape_of};
ghost use Rattle.life.specs.Settle.{settle_one};
ghost use Rattle.room.specs.Sizes.{bytes};
ghost use Rattle.room.specs.Tables.{Tables, extended};
ghost use Rattle.unfolding.specs.Unfolding.{built_in};

use crate::descriptor::{Component, Kind, Run};
use crate::sizes::Sizes;
use crate::tables::Book;
use catalog::few::Few;
use catalog::row::Row;
use catalog::shape::{Head, Shape};
use catalog::values::{Attribute, ShortName};
use type_info::oid::Oid;

fn bytes_of_labels(labels: &Few<ShortName, 64>) -> usize
    ensures bytes { result ≡ bytes (map text_of (standing labels.now)) }
    ensures few { result ≤ 4032 }
{
    let mut bytes = 0;
    for label in labels.as_slice() {
        bytes += label.get().len();
    }
    bytes
}

fn bytes_of_attributes(attributes: &Few<Attribute, 64>) -> usize
    ensures bytes { result ≡ bytes (names_of (map attribute_meaning (standing attributes.now))) }
    ensures few { result ≤ 4032 }
{
    let mut bytes = 0;
    for attribute in attributes.as_slice() {
        bytes += attribute.name.get().len();
    }
    bytes
}

// How much the labels or attributes of a row take.
fn size_of_parts(row: &Row, head: Head<'_>) -> Sizes
    requires { PartsOf (row_meaning row.now) (head_meaning head) }
    ensures sizes { sizes_told result ≡ size_of_parts (head_meaning head.entry) }
    ensures few { result.text ≤ 4032 }
    ensures parts_few { result.parts ≤ 64 }
{
    match head {
        Head::Simple | Head::Pseudo | Head::Domain | Head::Array | Head::Range => Sizes::NONE,
        Head::Enum(_) => Sizes {
            parts: row.labels.len(),
            text: bytes_of_labels(&row.labels),
            ..Sizes::NONE
        },
        Head::Composite(_) => Sizes {
            parts: row.attributes.len(),
            text: bytes_of_attributes(&row.attributes),
            ..Sizes::NONE
        },
    }
}

// How much the descriptor of a row takes.
fn size_of(row: &Row, shape: &Shape<'_>) -> Sizes
    requires { shape_of (row_meaning row.now) ≡ Some (shape_meaning shape.now) }
    ensures sizes { sizes_told result ≡ size_of_shape (shape_meaning shape.now) }
    ensures few { FewOf 8192 (sizes_told result) }
{
    let parts = size_of_parts(row, shape.head);
    Sizes {
        descriptors: 1,
        text: shape.name.len() + parts.text,
        ..parts
    }
}

// How much the descriptor that a row tells takes. Nothing where the row is malformed.
pub fn size_of_row(row: &Row) -> Sizes
    ensures sizes { sizes_told result ≡ size_of_row (row_meaning row.now) }
    ensures few { FewOf 8192 (sizes_told result) }
{
    match row.shape() {
        Ok(shape) => size_of(row, &shape),
        Err(_) => Sizes::NONE,
    }
}

impl<'a> Book<'a> {
    fn push_labels(&mut self, labels: &Few<ShortName, 64>) -> Run
        requires { Fits (sum_of (held_of self.old).taken (size_of_members (label_members (map text_of (standing labels.now))))) (held_of self.old).capacity }
        ensures first { result.first ≡ length (held_of self.old).members }
        ensures count { result.count ≡ length (standing labels.now) }
        ensures held { held_of self.new ≡ with_members (held_of self.old) (label_members (map text_of (standing labels.now))) }
    {
        let first = self.parts.len() as u32;
        for label in labels.as_slice() {
            self.push_part(label.get(), None);
        }
        Run {
            first,
            count: labels.len() as u32,
        }
    }

    // What an attribute is of is told as long as the book has no more descriptors.
    fn push_attributes(&mut self, attributes: &Few<Attribute, 64>) -> Run
        requires { Fits (sum_of (held_of self.old).taken (size_of_members (attribute_members (held_of self.old).descriptions (map attribute_meaning (standing attributes.now))))) (held_of self.old).capacity }
        ensures first { result.first ≡ length (held_of self.old).members }
        ensures count { result.count ≡ length (standing attributes.now) }
        ensures held { held_of self.new ≡ with_members (held_of self.old) (attribute_members (held_of self.old).descriptions (map attribute_meaning (standing attributes.now))) }
    {
        let first = self.parts.len() as u32;
        for attribute in attributes.as_slice() {
            let typed = self.component_for(attribute.oid);
            self.push_part(attribute.name.get(), typed);
        }
        Run {
            first,
            count: attributes.len() as u32,
        }
    }

    // The only type that a domain, an array or a range is made of.
    fn only_component(&self, links: &Few<Oid, 64>) -> Option<Component>
        ensures { result ≡ option_and_then (component_for (held_of self.now).descriptions) (slice_get (links_told links.now) 0) }
    {
        self.component_for(*links.as_slice().first()?)
    }

    // The kind of a row's shape. Its labels or attributes are laid for it.
    fn push_kind(&mut self, row: &Row, shape: &Shape<'_>) -> Option<Kind>
        requires shape { shape_of (row_meaning row.now) ≡ Some (shape_meaning shape.now) }
        requires known { list_all (is_known (held_of self.old).descriptions) (shape_meaning shape.now).links ≡ true }
        requires fits { Fits (sum_of (held_of self.old).taken (size_of_members (row_members (held_of self.old).descriptions (row_meaning row.now) (shape_meaning shape.now).head))) (held_of self.old).capacity }
        ensures { MatchOption result ⊥ (λ kind. KindLaid (held_of self.old) (row_meaning row.now) (shape_meaning shape.now) kind (held_of self.new)) }
    {
        Some(match shape.head {
            Head::Simple => Kind::Simple,
            Head::Pseudo => Kind::Pseudo,
            Head::Domain => Kind::Domain(self.only_component(&shape.links)?),
            Head::Array => Kind::Array(self.only_component(&shape.links)?),
            Head::Range => Kind::Range(self.only_component(&shape.links)?),
            Head::Enum(_) => Kind::Enum(self.push_labels(&row.labels)),
            Head::Composite(_) => Kind::Composite(self.push_attributes(&row.attributes)),
        })
    }

    // Whether the OID can be described by the shape: it is not known, what it is made of is, and there is room.
    fn settles(&self, oid: Oid, row: &Row, shape: &Shape<'_>) -> bool
        requires { shape_of (row_meaning row.now) ≡ Some (shape_meaning shape.now) }
        ensures { result ≡ settles_so (held_of self.now) oid.0 (Some (shape_meaning shape.now)) }
    {
        if self.component_for(oid).is_some() || !self.knows_all(&shape.links) {
            return false;
        }
        self.room(size_of(row, shape)).is_none()
    }

    // Adds the descriptor that the row tells of an OID, unless the OID is known, the row is malformed, a type that it is made of
    // is not known, or a table has no room. Whether it was added.
    pub fn settle(&mut self, oid: Oid, row: &Row) -> bool
        ensures told { result ≡ settles (held_of self.old) oid.0 (row_meaning row.now) }
        ensures held { held_of self.new ≡ if result then with_row (held_of self.old) oid.0 (row_meaning row.now) else held_of self.old }
        ensures tree { result ≡ true → is_some (row_tree (held_of self.old) oid.0 (row_meaning row.now)) ≡ true }
        ensures stands { (t : Tables) → Stands (held_of self.old) t →
            Stands (held_of self.new) (if result then extended t (one_row (held_of self.old) oid.0 (row_meaning row.now)) else t) }
        ensures settles_one { (c : Catalog) → c.rows oid.0 ≡ Some (row_meaning row.now) → built_in oid.0 ≡ false → RoomForRow (held_of self.old) (row_meaning row.now) →
            (book_held (held_of self.new)).descriptors ≡ settle_one c (book_held (held_of self.old)).descriptors oid.0 }
    {
        let Ok(shape) = row.shape() else {
            return false;
        };
        if !self.settles(oid, row, &shape) {
            return false;
        }
        if let Some(kind) = self.push_kind(row, &shape) {
            self.push_descriptor(oid, shape.name, kind);
        }
        true
    }
}
