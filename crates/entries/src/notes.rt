// What a resolve notes beside its finds, and what holds of it at all times.
ghost use Rattle.entries.specs.Tables.{Indexed, NotesLent};

use indexes::whole::OidIndex;
use slots::map::Entry;
use slots::stack::Stack;
use type_info::oid::Oid;

// One for each entry, and one for each row that may be read.
pub const MOST_NOTES: usize = 256;

// Twice as many slots as elements, so that look-ups stay short.
pub const NOTE_SLOTS: usize = 512;

// What the slots hold does not matter.
#[derive(Drop)]
pub struct NotesMemory<'a> {
    pub leads: &'a mut [Option<Oid>],
    pub apart: &'a mut [(Oid, Option<Oid>)],
    pub index: &'a mut [Entry<Oid, Option<Oid>>],
}

// The OID that the name of each entry leads to, and the elements whose rows are read for their typarray alone, each with it. The index
// leads from such an element to that.
#[derive(Drop)]
pub struct Notes<'a> {
    pub(crate) leads: Stack<'a, Option<Oid>>,
    pub(crate) apart: Stack<'a, (Oid, Option<Oid>)>,
    pub(crate) index: OidIndex<'a, Option<Oid>>,
    ghost lent: { NotesLent leads apart index },
    ghost indexed: { Indexed apart index },
}
