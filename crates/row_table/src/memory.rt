// The memory of a row table, which the host lends.
use catalog::row::Row;
use catalog::values::{LongName, ShortName};
use keys::kinds::Attribute;
use keys::span::Span;
use slots::map::Entry;
use type_info::oid::Oid;

pub const MOST_ROWS: usize = 256;

pub const MOST_NAMES: usize = 512;

// Labels and attributes together.
pub const MOST_PARTS: usize = 1024;

pub const MOST_COLUMNS: usize = 1024;

// 128 bytes for each name.
pub const TEXT_BYTES: usize = 65536;

// A slot for each row, name and column, and one for the table of each column's relation. What they hold does not matter.
#[derive(Drop)]
pub struct Memory<'a> {
    pub rows: &'a mut [Entry<Oid, Row>],
    pub names: &'a mut [Entry<Span, Oid>],
    pub text: &'a mut [u8],
    pub relations: &'a mut [Entry<Oid, LongName>],
    pub columns: &'a mut [Entry<Attribute, ShortName>],
}
