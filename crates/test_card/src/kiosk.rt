// A book, the row table that it learns from, and the text in which names lie.
use crate::cards::Card;
use crate::told::{Described, Fill, Held, Resolve, Word};
use anyhow::Context;
use binding::writing::{BoundColumn, BoundType, Origin};
use book::sizes::Sizes;
use book::tables::Book;
use calls::bound::bind;
use calls::filling::fill;
use calls::resolving::resolve;
use calls::work::Work;
use heap::books::BookMemory;
use heap::tables::TableMemory;
use heap::work::StepMemory;
use keys::span::Span;
use offers::offer::{OfferedAttribute, OfferedRow};
use requests::asked::{FieldAsked, TypeAsked};
use requests::ordinals::ColumnNames;
use row_table::table::RowTable;
use std::alloc::{AllocError, Global};
use type_info::oid::{Oid, Ordinal};

// What lies in a slot for a column before a bind.
const NO_COLUMN: BoundColumn = BoundColumn {
    name: Span {
        start: 0,
        length: 0,
    },
    ordinal: Ordinal(0),
    typed: BoundType::Declared(Oid(0)),
    relation: None,
    attribute: None,
    origin: Origin::Expression,
};

#[derive(Drop)]
pub struct Memory {
    book: BookMemory,
    rows: TableMemory,
    step: StepMemory,
}

// A type as an example declares it.
#[derive(Clone, Copy)]
pub enum Wanted {
    Name(&'static [u8]),
    ArrayOf(&'static [u8]),
}

#[derive(Drop)]
pub struct Kiosk<'a> {
    pub alloc: Global,
    book: Book<'a>,
    pub rows: RowTable<'a>,
    work: Work<'a>,
    text: Vec<u8>,
    oids: Vec<Oid>,
}

impl Memory {
    pub fn new(alloc: Global) -> Result<Memory, AllocError> {
        Ok(Memory {
            book: BookMemory::new(alloc)?,
            rows: TableMemory::new(alloc)?,
            step: StepMemory::new(alloc)?,
        })
    }

    // An empty book with tables of these sizes, over no rows at allowance 64.
    pub fn kiosk(&mut self, alloc: Global, sizes: Sizes) -> anyhow::Result<Kiosk<'_>> {
        Ok(Kiosk {
            alloc,
            book: Book::new(self.book.lend(sizes)),
            rows: RowTable::new(self.rows.lend(), 64).context("no memory for a row table")?,
            work: Work::new(self.step.lend()).context("no memory for a step")?,
            text: Vec::new(alloc),
            oids: Vec::new(alloc),
        })
    }
}

impl<'a> Kiosk<'a> {
    // Lays a name behind the text.
    pub fn lay(&mut self, name: &[u8]) -> anyhow::Result<Span> {
        let start = u32::try_from(self.text.len()).context("too much text")?;
        let length = u32::try_from(name.len()).context("a long name")?;
        self.text.extend_from_slice(name)?;
        Ok(Span { start, length })
    }

    pub fn row(&mut self, card: Card<'_>) -> anyhow::Result<()> {
        let pretty = self.lay(card.pretty)?;
        let mut labels = Vec::new(self.alloc);
        for label in card.labels {
            labels.push(self.lay(label)?)?;
        }
        let mut attributes = Vec::new(self.alloc);
        for (name, oid) in card.attributes {
            let name = self.lay(name)?;
            attributes.push(OfferedAttribute {
                name,
                oid: Oid(*oid),
            })?;
        }
        let offered = OfferedRow {
            oid: Oid(card.oid),
            pretty,
            typtype: card.typtype,
            typcategory: card.typcategory,
            typelem: card.typelem,
            typbasetype: card.typbasetype,
            rngsubtype: None,
            typarray: card.typarray,
            labels: labels.as_slice(),
            attributes: attributes.as_slice(),
        };
        self.rows.add_row(self.text.as_slice(), offered)?;
        self.oids.push(Oid(card.oid))?;
        Ok(())
    }

    pub fn name(&mut self, name: &[u8], oid: u32) -> anyhow::Result<()> {
        let name = self.lay(name)?;
        self.rows.add_name(self.text.as_slice(), name, Oid(oid))?;
        Ok(())
    }

    pub fn fill(&mut self, rt: &HostRuntime, oids: &[u32]) -> anyhow::Result<()> {
        let told = fill(&mut self.book, &mut self.rows, &mut self.work, oids);
        let fill = Fill { oids, told };
        println!(rt; "  {fill}, allowance {}", self.rows.allowance())?;
        Ok(())
    }

    // The entries, whose names go behind the text.
    fn asked(&mut self, wanted: &[Wanted]) -> anyhow::Result<Vec<TypeAsked>> {
        let mut entries = Vec::new(self.alloc);
        for want in wanted {
            let entry = match want {
                Wanted::Name(name) => TypeAsked::Name(self.lay(name)?),
                Wanted::ArrayOf(name) => TypeAsked::ArrayOf(self.lay(name)?),
            };
            entries.push(entry)?;
        }
        Ok(entries)
    }

    pub fn resolve(&mut self, rt: &HostRuntime, wanted: &[Wanted]) -> anyhow::Result<()> {
        let entries = self.asked(wanted)?;
        let mut out = vec![in self.alloc; 0; wanted.len()]?;
        let told = resolve(
            &mut self.book,
            &mut self.rows,
            &mut self.work,
            self.text.as_slice(),
            entries.as_slice(),
            out.as_mut_slice(),
        );
        let resolve = Resolve {
            wanted,
            out: out.as_slice(),
            told,
        };
        println!(rt; "  {resolve}, allowance {}", self.rows.allowance())?;
        Ok(())
    }

    // Binds fields of int4 with these names, which are told by name then.
    pub fn bind(
        &mut self,
        rt: &HostRuntime,
        names: &[&[u8]],
        asked: &[&[u8]],
    ) -> anyhow::Result<()> {
        let mut fields = Vec::new(self.alloc);
        for name in names {
            fields.push(FieldAsked {
                name: self.lay(name)?,
                oid: Oid(23),
                relation: None,
                attribute: None,
            })?;
        }
        let mut columns = vec![in self.alloc; NO_COLUMN; names.len()]?;
        let told = bind(
            &mut self.book,
            &mut self.rows,
            &mut self.work,
            self.text.as_slice(),
            &[],
            fields.as_slice(),
            true,
            true,
            &mut [],
            columns.as_mut_slice(),
        )?;
        print!(rt; "  bind of fields")?;
        for name in names {
            print!(rt; " {}", Word(name))?;
        }
        println!(rt;
            ": counts {} and {}, allowance {}",
            told.types,
            told.columns,
            self.rows.allowance()
        )?;
        self.print_ordinals(rt, columns.as_slice(), asked)
    }

    fn print_ordinals(
        &mut self,
        rt: &HostRuntime,
        columns: &[BoundColumn],
        asked: &[&[u8]],
    ) -> anyhow::Result<()> {
        let mut names = Vec::new(self.alloc);
        for column in columns {
            names.push(column.name)?;
        }
        let mut slots = vec![in self.alloc; None; columns.len()]?;
        for name in asked {
            let span = self.lay(name)?;
            let index = ColumnNames::new(
                self.text.as_slice(),
                names.as_slice(),
                slots.as_mut_slice(),
            ).context("too many columns")?;
            match index.ordinal(span) {
                Some(ordinal) => println!(rt; "    ordinal of {}: {}", Word(name), ordinal.0)?,
                None => println!(rt; "    ordinal of {}: none", Word(name))?,
            }
        }
        Ok(())
    }

    // What the book answers for a name, and for the array of an element.
    pub fn print_links(&self, rt: &HostRuntime, name: &[u8], element: Oid) -> anyhow::Result<()> {
        let named = Held(self.book.oid_of(name));
        let array = Held(self.book.array_of(element));
        println!(rt;
            "    name {}: {named}; array of {}: {array}",
            Word(name),
            element.0
        )?;
        Ok(())
    }

    pub fn print_count(&self, rt: &HostRuntime) -> anyhow::Result<()> {
        println!(rt; "    described: {}", self.book.taken().descriptors)?;
        Ok(())
    }

    pub fn print_type(&self, rt: &HostRuntime, oid: Oid) -> anyhow::Result<()> {
        let book = &self.book;
        println!(rt; "    {}", Described { book, oid })?;
        Ok(())
    }

    // What is described of the OIDs that have a row.
    pub fn print_book(&self, rt: &HostRuntime) -> anyhow::Result<()> {
        for oid in &self.oids {
            self.print_type(rt, *oid)?;
        }
        Ok(())
    }
}
