// A book, and what it has to hold.
use crate::lent::Slots;
use crate::offer::{Offer, text_at};
use crate::outcome::Outcome;
use crate::rows::row_of;
use crate::sizes::{TABLES, difference, sum, with};
use crate::telling::{is_undescribed, tells};
use anyhow::Context;
use book::memory::Memory;
use book::settled::Settled;
use book::sizes::{BookTable, Sizes};
use book::tables::Book;
use keys::kinds::Attribute;
use keys::span::Span;
use std::alloc::{AllocError, Global};
use type_info::oid::{AttributeNumber, Oid};

#[derive(Drop)]
pub struct Trial<'a> {
    pub book: Book<'a>,
    host: &'a [u8],
    pub held: Vec<Offer>,
    // The table of each relation of which a column is held.
    tables: Vec<(u32, Span)>,
    pub taken: Sizes,
    pub capacity: Sizes,
}

fn attribute_of(relation: u32, attribute: i16) -> Attribute {
    Attribute {
        relation: Oid(relation),
        number: AttributeNumber(attribute),
    }
}

impl<'a> Trial<'a> {
    // A new book over the slots, and over the memory of so many.
    pub fn new(alloc: Global, memory: Memory<'a>, slots: Slots, host: &'a [u8]) -> Trial<'a> {
        Trial {
            book: Book::new(memory),
            host,
            held: Vec::new(alloc),
            tables: Vec::new(alloc),
            taken: Sizes::NONE,
            capacity: slots.capacity(),
        }
    }

    fn table_of(&self, relation: u32) -> Option<Span> {
        let mut tables = self.tables.iter();
        Some(tables.find(|of| of.0 == relation)?.1)
    }

    fn size_of(&self, offer: Offer) -> Sizes {
        match offer {
            Offer::Column(relation, ..) => offer.size(self.table_of(relation).is_some()),
            _ => offer.size(false),
        }
    }

    // From now on the book has to hold what was added to it.
    fn keep(&mut self, offer: Offer, size: Sizes) -> Result<(), AllocError> {
        self.held.push(offer)?;
        self.taken = sum(self.taken, size);
        if let Offer::Column(relation, _, table, _) = offer {
            if self.table_of(relation).is_none() {
                self.tables.push((relation, table))?;
            }
        }
        Ok(())
    }

    fn add(&mut self, offer: Offer) -> anyhow::Result<bool> {
        Ok(match offer {
            Offer::Row(oid, pretty, sort) => {
                let row = row_of(self.host, pretty, sort).context("no row")?;
                self.book.settle(Oid(oid), &row)
            }
            Offer::Name(name, oid) => self.book.hold_name(text_at(self.host, name), Oid(oid)),
            Offer::Array(element, array) => self.book.hold_array(Oid(element), Oid(array)),
            Offer::Column(relation, attribute, table, name) => self.book.hold_column(
                attribute_of(relation, attribute),
                text_at(self.host, table),
                text_at(self.host, name),
            ),
        })
    }

    // What becomes of the offer.
    pub fn offer(&mut self, offer: Offer) -> anyhow::Result<Outcome> {
        let size = self.size_of(offer);
        let full = self.book.room(size);
        let added = self.add(offer)?;
        if added {
            self.keep(offer, size)?;
        }
        Ok(Outcome::new(added, full))
    }

    // The first of the offers that is not added.
    pub fn fill(&mut self, offers: &[Offer]) -> anyhow::Result<Option<Offer>> {
        for offer in offers {
            if self.offer(*offer)? != Outcome::Added {
                return Ok(Some(*offer));
            }
        }
        Ok(None)
    }

    fn tells_column(&self, relation: u32, attribute: i16, name: Span) -> bool {
        let Some(table) = self.table_of(relation) else {
            return false;
        };
        match self.book.column(Oid(relation), AttributeNumber(attribute)) {
            Some(column) => {
                column.table == text_at(self.host, table) && column.name == text_at(self.host, name)
            }
            None => false,
        }
    }

    // The settled type of a row.
    pub fn settled(&self, offer: Offer) -> Option<Settled> {
        match offer {
            Offer::Row(oid, ..) => self.book.describe(Oid(oid)),
            _ => None,
        }
    }

    // Whether the settled type is told to be that of a row.
    pub fn tells_settled(&self, settled: Settled, offer: Offer) -> bool {
        match offer {
            Offer::Row(oid, pretty, sort) => {
                let name = text_at(self.host, pretty);
                tells(&self.book, self.host, settled, oid, name, sort)
            }
            _ => false,
        }
    }

    // Whether the book answers what it holds.
    fn tells_held(&self, offer: Offer) -> bool {
        match offer {
            Offer::Row(oid, ..) => match self.settled(offer) {
                Some(settled) => self.book.knows(Oid(oid)) && self.tells_settled(settled, offer),
                None => false,
            },
            Offer::Name(name, oid) => {
                self.book.oid_of(text_at(self.host, name)) == Some(Oid(oid))
            }
            Offer::Array(element, array) => self.book.array_of(Oid(element)) == Some(Oid(array)),
            Offer::Column(relation, attribute, _, name) => {
                self.tells_column(relation, attribute, name)
            }
        }
    }

    // Whether the book does not answer what it does not hold.
    pub fn tells_unheld(&self, offer: Offer) -> bool {
        match offer {
            Offer::Row(oid, ..) => is_undescribed(&self.book, oid),
            Offer::Name(name, _) => self.book.oid_of(text_at(self.host, name)).is_none(),
            Offer::Array(element, _) => self.book.array_of(Oid(element)).is_none(),
            Offer::Column(relation, attribute, ..) => self
                .book
                .column(Oid(relation), AttributeNumber(attribute))
                .is_none(),
        }
    }

    // Whether the book answers what is held under the offer, or nothing where nothing is.
    pub fn tells(&self, offer: Offer) -> bool {
        match self.held.iter().find(|held| held.is_like(offer, self.host)) {
            Some(held) => self.tells_held(*held),
            None => self.tells_unheld(offer),
        }
    }

    // The first of all that is held that the book does not answer.
    pub fn untold(&self) -> Option<Offer> {
        self.held
            .iter()
            .find(|offer| !self.tells_held(**offer))
            .copied()
    }

    // Whether this table is told to be the first without room, where one more is added to it than is left, and another one to it
    // or to one behind it.
    fn tells_both(&self, left: Sizes, first: BookTable, second: BookTable) -> bool {
        let one = with(Sizes::NONE, first, 1);
        let other = with(Sizes::NONE, second, 1);
        self.book.room(sum(sum(left, one), other)) == Some(first)
    }

    fn tells_one(&self, left: Sizes, table: BookTable) -> bool {
        let one = with(Sizes::NONE, table, 1);
        let endless = with(Sizes::NONE, table, usize::MAX);
        self.book.room(sum(left, one)) == Some(table) && self.book.room(endless) == Some(table)
    }

    // Whether there is room for exactly what is left.
    pub fn judges_room(&self) -> bool {
        let left = difference(self.book.capacity(), self.taken);
        let mut judged = self.book.room(left).is_none();
        for (i, first) in TABLES.iter().enumerate() {
            judged = judged && self.tells_one(left, *first);
            for second in &TABLES[i..] {
                judged = judged && self.tells_both(left, *first, *second);
            }
        }
        judged
    }
}
