// What a host does with a row table: it makes one, adds to it and sets its allowance.
ghost use Rattle.std.specs.Prelude.{◌≡◌, ◌≤◌, MatchOption, length, true, Ok};
ghost use Rattle.catalog.specs.Catalog.{Grows, Sized};
ghost use Rattle.catalog.specs.Meaning.{column_meaning, row_meaning};
ghost use Rattle.offers.specs.Offered.{offer_of, offered_column, offered_name, offered_row};
ghost use Rattle.row_table.specs.Additions.{answer, column_answer, column_judged, column_then, held_then, name_answer, name_judged, name_then, row_answer, row_judged, row_then, with_column, with_name, with_row};
ghost use Rattle.row_table.specs.Held.{at_allowance, nothing_held};
ghost use Rattle.row_table.specs.Outcomes.{ColumnOutcome, NameOutcome, RowOutcome};
ghost use Rattle.row_table.specs.Table.{Whole, held_of, meaning_of};

use crate::memory::{MOST_COLUMNS, MOST_NAMES, MOST_ROWS, Memory, TEXT_BYTES};
use crate::table::RowTable;
use catalog::faults::CatalogFault;
use catalog::row::Row;
use catalog::values::Column;
use indexes::names::NameIndex;
use indexes::whole::{AttributeIndex, OidIndex};
use keys::kinds::Attribute;
use keys::span::Span;
use offers::offer::OfferedRow;
use offers::rows::read_row;
use offers::texts::{read_column, read_name};
use type_info::oid::Oid;

impl<'a> RowTable<'a> {
    // A row table that holds nothing; none where the memory is not of the tables' size.
    pub fn new(memory: Memory<'a>, allowance: u32) -> Option<RowTable<'a>>
        ensures { MatchOption result (Whole memory.entry → ⊥) (λ t. Whole memory.entry × (held_of t ≡ nothing_held allowance)) }
    {
        let Memory {
            rows,
            names,
            text,
            relations,
            columns,
        } = memory;
        if rows.len() != MOST_ROWS
            || names.len() != MOST_NAMES
            || text.len() != TEXT_BYTES
            || relations.len() != MOST_COLUMNS
            || columns.len() != MOST_COLUMNS
        {
            return None;
        }
        Some(RowTable {
            rows: OidIndex::new(rows),
            names: NameIndex::new(text, names),
            part_count: 0,
            relations: OidIndex::new(relations),
            columns: AttributeIndex::new(columns),
            allowance,
        })
    }

    pub fn allowance(&self) -> u32
        ensures { result ≡ (held_of self.now).allowance }
    {
        self.allowance
    }

    pub fn set_allowance(&mut self, allowance: u32)
        ensures { held_of self.new ≡ at_allowance (held_of self.old) allowance }
    {
        self.allowance = allowance;
    }

    fn hold_row(&mut self, oid: Oid, row: Row) -> Result<(), CatalogFault>
        requires { 1 ≤ oid.0 }
        ensures answer { result ≡ answer (row_judged (held_of self.old) oid (row_meaning row)) }
        ensures held { held_of self.new ≡ held_then (row_judged (held_of self.old) oid (row_meaning row)) (held_of self.old) (with_row (held_of self.old) oid (row_meaning row)) }
    {
        if self.is_new_row(oid, &row)? {
            self.put_row(oid, row);
        }
        Ok(())
    }

    // Adds a row and its pretty name.
    pub fn add_row(&mut self, host: &[u8], offered: OfferedRow<'_>) -> Result<(), CatalogFault>
        ensures answer { result ≡ row_answer (held_of self.old) offered.entry.oid (offered_row host.now (offer_of offered.entry)) }
        ensures held { held_of self.new ≡ row_then (held_of self.old) offered.entry.oid (offered_row host.now (offer_of offered.entry)) }
        ensures outcome { RowOutcome (held_of self.old) offered.entry.oid (offered_row host.now (offer_of offered.entry)) (meaning_of self.old) (meaning_of self.new) result }
        ensures grows { Grows (meaning_of self.old) (meaning_of self.new) }
    {
        let row = read_row(host, offered).ok_or(CatalogFault::BreaksLimit(offered.oid))?;
        self.hold_row(offered.oid, row)
    }

    fn hold_name(&mut self, oid: Oid, name: &[u8]) -> Result<(), CatalogFault>
        requires { Sized 128 name.now }
        ensures answer { result ≡ answer (name_judged (held_of self.old) oid name.now) }
        ensures held { held_of self.new ≡ held_then (name_judged (held_of self.old) oid name.now) (held_of self.old) (with_name (held_of self.old) oid name.now) }
    {
        if self.is_new_name(oid, name)? {
            self.put_name(oid, name);
        }
        Ok(())
    }

    // Adds a name that leads to an OID.
    pub fn add_name(&mut self, host: &[u8], name: Span, oid: Oid) -> Result<(), CatalogFault>
        ensures answer { result ≡ name_answer (held_of self.old) oid (offered_name host.now name) }
        ensures held { held_of self.new ≡ name_then (held_of self.old) oid (offered_name host.now name) }
        ensures outcome { NameOutcome (held_of self.old) oid (offered_name host.now name) (meaning_of self.old) (meaning_of self.new) result }
        ensures grows { Grows (meaning_of self.old) (meaning_of self.new) }
    {
        let name = read_name(host, name).ok_or(CatalogFault::BreaksLimit(oid))?;
        self.hold_name(oid, name.get())
    }

    fn hold_column(&mut self, at: Attribute, column: &Column) -> Result<(), CatalogFault>
        ensures answer { result ≡ answer (column_judged (held_of self.old) at (column_meaning column.now)) }
        ensures held { held_of self.new ≡ held_then (column_judged (held_of self.old) at (column_meaning column.now)) (held_of self.old) (with_column (held_of self.old) at (column_meaning column.now)) }
    {
        if self.is_new_column(at, column)? {
            self.put_column(at, column);
        }
        Ok(())
    }

    // Adds a column of a relation: the relation's table, and the column's name.
    pub fn add_column(
        &mut self,
        host: &[u8],
        at: Attribute,
        table: Span,
        name: Span,
    ) -> Result<(), CatalogFault>
        ensures answer { result ≡ column_answer (held_of self.old) at (offered_column host.now table name) }
        ensures held { held_of self.new ≡ column_then (held_of self.old) at (offered_column host.now table name) }
        ensures outcome { ColumnOutcome (held_of self.old) at (offered_column host.now table name) (meaning_of self.old) (meaning_of self.new) result }
        ensures grows { Grows (meaning_of self.old) (meaning_of self.new) }
    {
        let column = read_column(host, table, name).ok_or(CatalogFault::BreaksLimit(at.relation))?;
        self.hold_column(at, &column)
    }
}
