// A book, the row tables that it learns from one after the other, and a text of numbers in which names lie.
use crate::outcome::Outcome;
use anyhow::Context;
use binding::writing::{BoundColumn, BoundType, Origin};
use book::sizes::Sizes;
use book::tables::Book;
use calls::bound::bind;
use calls::filling::fill;
use calls::resolving::resolve;
use calls::work::Work;
use heap::books::BookMemory;
use heap::tables::TableMemory;
use heap::work::StepMemory;
use keys::kinds::Attribute;
use keys::span::Span;
use offers::offer::OfferedRow;
use requests::asked::{FieldAsked, TypeAsked};
use row_table::table::RowTable;
use std::alloc::{AllocError, Global};
use std::mem;
use type_info::oid::{AttributeNumber, Oid, Ordinal};

// The text has so many numbers of four digits, one after the other.
pub const NUMBERS: u32 = 1024;

// What lies in the answer buffers before a step.
pub const UNWRITTEN: u32 = 4294967295;

pub const NO_TYPE: BoundType = BoundType::Declared(Oid(UNWRITTEN));

pub const NO_COLUMN: BoundColumn = BoundColumn {
    name: Span {
        start: 0,
        length: 0,
    },
    ordinal: Ordinal(0),
    typed: NO_TYPE,
    relation: None,
    attribute: None,
    origin: Origin::Expression,
};

// The relation that all columns are of, and the number that names its table.
pub const RELATION: Oid = Oid(7);

pub const TABLE: u32 = 1000;

pub fn number(n: u32) -> Span {
    Span {
        start: n.wrapping_mul(4),
        length: 4,
    }
}

// The OID of the type that is named by a number.
pub fn oid(n: u32) -> u32 {
    n.wrapping_add(50000)
}

pub fn attribute(n: u32) -> AttributeNumber {
    AttributeNumber(i16::try_from(n).unwrap_or(0))
}

// The row of the type that is named by a number: a simple type.
pub fn row(n: u32) -> OfferedRow<'static> {
    OfferedRow {
        oid: Oid(oid(n)),
        pretty: number(n),
        typtype: b'b',
        typcategory: b'U',
        typelem: None,
        typbasetype: None,
        rngsubtype: None,
        typarray: None,
        labels: &[],
        attributes: &[],
    }
}

pub fn domain(n: u32, base: u32) -> OfferedRow<'static> {
    OfferedRow {
        typtype: b'd',
        typbasetype: Some(Oid(base)),
        ..row(n)
    }
}

// The OIDs of so many numbers.
pub fn oids(alloc: Global, from: u32, count: u32) -> Result<Vec<u32>, AllocError> {
    let mut list = Vec::new(alloc);
    for i in 0..count {
        list.push(oid(from.wrapping_add(i)))?;
    }
    Ok(list)
}

fn write_numbers(alloc: Global) -> Result<String, AllocError> {
    let mut text = String::new(alloc);
    for n in 0..NUMBERS {
        write!(text, "{n:04}")?;
    }
    Ok(text)
}

#[derive(Drop)]
pub struct Memory {
    book: BookMemory,
    rows: TableMemory,
    second: TableMemory,
    third: TableMemory,
    step: StepMemory,
    text: String,
}

#[derive(Drop)]
pub struct Bench<'a> {
    pub book: Book<'a>,
    pub rows: RowTable<'a>,
    second: RowTable<'a>,
    third: RowTable<'a>,
    work: Work<'a>,
    pub text: &'a [u8],
}

// No rows, at allowance 64.
fn new_table(memory: &mut TableMemory) -> anyhow::Result<RowTable<'_>> {
    RowTable::new(memory.lend(), 64).context("no memory for a row table")
}

impl Memory {
    pub fn new(alloc: Global) -> Result<Memory, AllocError> {
        Ok(Memory {
            book: BookMemory::new(alloc)?,
            rows: TableMemory::new(alloc)?,
            second: TableMemory::new(alloc)?,
            third: TableMemory::new(alloc)?,
            step: StepMemory::new(alloc)?,
            text: write_numbers(alloc)?,
        })
    }

    // An empty book with tables of these sizes, over row tables that hold nothing.
    pub fn bench(&mut self, sizes: Sizes) -> anyhow::Result<Bench<'_>> {
        Ok(Bench {
            book: Book::new(self.book.lend(sizes)),
            rows: new_table(&mut self.rows)?,
            second: new_table(&mut self.second)?,
            third: new_table(&mut self.third)?,
            work: Work::new(self.step.lend()).context("no memory for a step")?,
            text: self.text.as_bytes(),
        })
    }
}

impl<'a> Bench<'a> {
    // Goes on with the next row table.
    pub fn turn(&mut self) {
        mem::swap(&mut self.rows, &mut self.second);
        mem::swap(&mut self.second, &mut self.third);
    }

    pub fn add(&mut self, row: OfferedRow<'_>) -> anyhow::Result<()> {
        self.rows.add_row(self.text, row)?;
        Ok(())
    }

    // One more name of the type that is named by a number.
    pub fn add_name(&mut self, name: u32, n: u32) -> anyhow::Result<()> {
        self.rows.add_name(self.text, number(name), Oid(oid(n)))?;
        Ok(())
    }

    // Simple types of so many numbers.
    pub fn add_simple(&mut self, from: u32, count: u32) -> anyhow::Result<()> {
        for i in 0..count {
            self.add(row(from.wrapping_add(i)))?;
        }
        Ok(())
    }

    // So many domains, each over the next, and the last over int4.
    pub fn add_chain(&mut self, from: u32, count: u32) -> anyhow::Result<()> {
        for i in 0..count {
            let n = from.wrapping_add(i);
            let next = n.wrapping_add(1);
            let last = i.wrapping_add(1) == count;
            self.add(domain(n, if last { 23 } else { oid(next) }))?;
        }
        Ok(())
    }

    // So many columns, each named by its number behind 500.
    pub fn add_columns(&mut self, count: u32) -> anyhow::Result<()> {
        for i in 0..count {
            let at = Attribute {
                relation: RELATION,
                number: attribute(i),
            };
            let name = number(i.wrapping_add(500));
            self.rows.add_column(self.text, at, number(TABLE), name)?;
        }
        Ok(())
    }

    pub fn fill(&mut self, oids: &[u32]) -> Outcome {
        fill(&mut self.book, &mut self.rows, &mut self.work, oids).into()
    }

    pub fn resolve(&mut self, entries: &[TypeAsked], out: &mut [u32]) -> Outcome {
        resolve(
            &mut self.book,
            &mut self.rows,
            &mut self.work,
            self.text,
            entries,
            out,
        )
        .into()
    }

    pub fn bind(
        &mut self,
        parameters: &[u32],
        fields: &[FieldAsked],
        queries: bool,
        origins: bool,
        types: &mut [BoundType],
        columns: &mut [BoundColumn],
    ) -> Outcome {
        bind(
            &mut self.book,
            &mut self.rows,
            &mut self.work,
            self.text,
            parameters,
            fields,
            queries,
            origins,
            types,
            columns,
        )
        .into()
    }
}
