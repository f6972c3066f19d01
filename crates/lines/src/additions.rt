// A name and a column that a line adds to the row table, over the line's host text.
ghost use Rattle.std.specs.Prelude.{◌≡◌};
ghost use Rattle.script.specs.Words.{words};
ghost use Rattle.lines.specs.Additions.{column_line, column_offered, name_line, name_offered};
ghost use Rattle.lines.specs.Reading.{Reads};

use crate::host::place_name;
use crate::trouble::Trouble;
use crate::word::{first_word, only_word, read_attribute_number, read_oid};
use keys::span::Span;
use std::alloc::Global;
use type_info::oid::{AttributeNumber, Oid};

#[derive(Drop)]
pub struct NameLine {
    pub host: Vec<u8>,
    pub name: Span,
    pub oid: Oid,
}

#[derive(Drop)]
pub struct ColumnLine {
    pub host: Vec<u8>,
    pub relation: Oid,
    pub number: AttributeNumber,
    pub table: Span,
    pub name: Span,
}

impl NameLine {
    // `name NAME OID`
    pub fn read(rest: &[u8], alloc: Global) -> Result<NameLine, Trouble>
        ensures { Reads name_offered (name_line (words rest.now)) result }
    {
        let (name, rest) = first_word(rest)?;
        let oid = only_word(rest)?;
        let mut host = Vec::new(alloc);
        let name = place_name(name, &mut host)?;
        let oid = read_oid(oid)?;
        Ok(NameLine { host, name, oid })
    }
}

impl ColumnLine {
    // `column RELATION ATTRIBUTE TABLE COLUMN`
    pub fn read(rest: &[u8], alloc: Global) -> Result<ColumnLine, Trouble>
        ensures { Reads column_offered (column_line (words rest.now)) result }
    {
        let (relation, rest) = first_word(rest)?;
        let (number, rest) = first_word(rest)?;
        let (table, rest) = first_word(rest)?;
        let name = only_word(rest)?;
        let relation = read_oid(relation)?;
        let number = read_attribute_number(number)?;
        let mut host = Vec::new(alloc);
        let table = place_name(table, &mut host)?;
        let name = place_name(name, &mut host)?;
        Ok(ColumnLine {
            host,
            relation,
            number,
            table,
            name,
        })
    }
}
