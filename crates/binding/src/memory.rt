// The memory of a column round, which the host lends.
ghost use Rattle.binding.specs.Memory.{Lent};

use catalog::values::Column;
use indexes::whole::AttributeIndex;
use keys::kinds::Attribute;
use slots::map::Entry;
use slots::stack::Stack;
use type_info::oid::Oid;

pub const MOST_COLUMNS: usize = 256;

// Twice as many slots as columns, so that look-ups stay short.
pub const COLUMN_SLOTS: usize = 512;

// What the slots hold does not matter.
#[derive(Drop)]
pub struct ColumnMemory<'a> {
    pub asked: &'a mut [Entry<Attribute, u32>],
    pub found: &'a mut [(Attribute, Column)],
    pub seen: &'a mut [Entry<Oid, u32>],
}

// Which columns were asked for, what was found of them, and slots for the count of their relations.
#[derive(Drop)]
pub struct ColumnFinds<'a> {
    pub(crate) asked: AttributeIndex<'a, u32>,
    pub(crate) found: Stack<'a, (Attribute, Column)>,
    pub(crate) seen: &'a mut [Entry<Oid, u32>],
    ghost lent: { Lent asked found seen.now },
}
