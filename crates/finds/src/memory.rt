// The memory of a step, which the host lends.
use catalog::row::Row;
use slots::map::Entry;
use type_info::oid::Oid;

pub const MOST_ROWS: usize = 256;

// A place for each row, and one for the OID that a refusal names.
pub const MOST_OIDS: usize = 257;

// Twice as many slots as OIDs, so that look-ups stay short.
pub const INDEX_SLOTS: usize = 512;

// What the slots hold does not matter.
#[derive(Drop)]
pub struct Memory<'a> {
    pub queue: &'a mut [Oid],
    pub index: &'a mut [Entry<Oid, u32>],
    pub rows: &'a mut [Option<Row>],
    pub order: &'a mut [u32],
    pub settled: &'a mut [Entry<Oid, u32>],
}
