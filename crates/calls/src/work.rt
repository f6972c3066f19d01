// The working memory of a step, which the host lends at a fixed size.
ghost use Rattle.calls.specs.Work.{Lent};

use binding::memory::{ColumnFinds, ColumnMemory};
use entries::notes::{Notes, NotesMemory};
use finds::memory::Memory;
use finds::tables::Finds;
use keys::span::Span;
use slots::map::Entry;
use type_info::oid::Oid;

// As many bytes as the names of 256 entries have at most.
pub const NAME_BYTES: usize = 32768;

// Twice as many slots as entries, so that look-ups stay short.
pub const NAME_SLOTS: usize = 512;

// What the slots hold does not matter.
#[derive(Drop)]
pub struct WorkMemory<'a> {
    pub finds: Memory<'a>,
    pub notes: NotesMemory<'a>,
    pub columns: ColumnMemory<'a>,
    pub text: &'a mut [u8],
    pub names: &'a mut [Entry<Span, Oid>],
}

// `text` and `names` are for the count of names alone.
#[derive(Drop)]
pub struct Work<'a> {
    pub(crate) finds: Finds<'a>,
    pub(crate) notes: Notes<'a>,
    pub(crate) columns: ColumnFinds<'a>,
    pub(crate) text: &'a mut [u8],
    pub(crate) names: &'a mut [Entry<Span, Oid>],
    ghost lent: { Lent text.now names.now },
}
