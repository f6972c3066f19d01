// The memory of a book, which the host lends.
use crate::descriptor::{ColumnNames, Descriptor, Part};
use keys::kinds::Attribute;
use keys::span::Span;
use slots::map::Entry;
use type_info::oid::Oid;

// As many slots of each as the host likes: what they hold does not matter. A descriptor takes one of `descriptors` and one
// of `index`. Beyond the limits of a book's tables, slots of the maps make look-ups shorter, and other slots stay unused.
#[derive(Drop)]
pub struct Memory<'a> {
    pub descriptors: &'a mut [Descriptor],
    pub index: &'a mut [Entry<Oid, u32>],
    pub parts: &'a mut [Part],
    pub names: &'a mut [Entry<Span, Oid>],
    pub arrays: &'a mut [Entry<Oid, Oid>],
    pub text: &'a mut [u8],
    pub columns: &'a mut [Entry<Attribute, ColumnNames>],
    pub relations: &'a mut [Entry<Oid, Span>],
}
