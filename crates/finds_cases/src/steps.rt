// One step over 256 OIDs, from 50000 on.
use book::memory::Memory;
use book::tables::Book;
use catalog::row::Row;
use finds::tables::Finds;
use keys::span::Span;
use offers::offer::{OfferedAttribute, OfferedRow};
use offers::rows::read_row;
use std::alloc::{AllocError, Global};
use std::fmt;
use type_info::oid::Oid;

const FIRST: u32 = 50000;

const COUNT: u32 = 256;

// Each is a domain over the next, and the last over int4; but for those that say otherwise.
#[derive(Clone, Copy, Debug)]
pub enum Links {
    // In the order in which rounds read them.
    UsersFirst,
    // In which each pass settles one.
    UsersLast,
    Strided,
    // The last is over the first.
    Ring,
    // One in the middle has no row.
    Broken,
    // Composites with two attributes of the next, read users first.
    Shared,
}

// A name of three digits for each.
#[derive(Drop)]
pub struct Texts {
    bytes: Vec<u8>,
}

// Of a number, from the hundreds on.
fn digit(number: usize, place: usize) -> u8 {
    let digit = match place {
        0 => number / 100 % 10,
        1 => number / 10 % 10,
        _ => number % 10,
    };
    b"0123456789"[digit]
}

impl Texts {
    pub fn new(alloc: Global) -> Result<Texts, AllocError> {
        let mut bytes = vec![in alloc; b'0'; 768]?;
        for (place, byte) in bytes.iter_mut().enumerate() {
            *byte = digit(place / 3, place % 3);
        }
        Ok(Texts { bytes })
    }
}

impl Links {
    // Which is read as the i-th.
    fn turn(self, i: u32) -> u32 {
        match self {
            Links::UsersLast => (COUNT - 1).saturating_sub(i),
            Links::Strided => i.wrapping_mul(67) % COUNT,
            Links::UsersFirst | Links::Ring | Links::Broken | Links::Shared => i,
        }
    }

    fn next(self, i: u32) -> Oid {
        if i < COUNT - 1 {
            oid_of(i + 1)
        } else if let Links::Ring = self {
            oid_of(0)
        } else {
            Oid(23)
        }
    }

    fn row(self, texts: &Texts, oid: Oid) -> Option<Row> {
        let i = oid.0.checked_sub(FIRST)?;
        if i >= COUNT {
            return None;
        }
        let next = self.next(i);
        let name = Span {
            start: 3 * i,
            length: 3,
        };
        let domain = OfferedRow {
            oid,
            pretty: name,
            typtype: b'd',
            typcategory: b'U',
            typelem: None,
            typbasetype: Some(next),
            rngsubtype: None,
            typarray: Some(Oid(oid.0.wrapping_add(1000))),
            labels: &[],
            attributes: &[],
        };
        let attribute = OfferedAttribute { name, oid: next };
        match self {
            Links::Broken if i == COUNT / 2 => None,
            Links::Shared => read_row(
                &texts.bytes,
                OfferedRow {
                    typtype: b'c',
                    typbasetype: None,
                    attributes: &[attribute, attribute],
                    ..domain
                },
            ),
            _ => read_row(&texts.bytes, domain),
        }
    }
}

// What a step came to: how many rows were settled, how many OIDs are described, how many of these tell the next as their first
// component, and how many names and array links are held.
#[derive(Drop)]
pub struct Told {
    settled: usize,
    described: usize,
    linked: usize,
    names: usize,
    arrays: usize,
    fits: bool,
}

impl fmt::Display for Told {
    fn fmt<W: fmt::Write>(&self, f: &mut fmt::Formatter<W>) -> fmt::Result {
        write!(
            f,
            "{} settled, {} described, {} linked, {} names, {} array links, counted {}",
            self.settled, self.described, self.linked, self.names, self.arrays, self.fits
        )
    }
}

fn oid_of(i: u32) -> Oid {
    Oid(FIRST.wrapping_add(i))
}

fn is_linked(book: &Book<'_>, oid: Oid, next: Oid) -> bool {
    let Some(settled) = book.describe(oid) else {
        return false;
    };
    match book.component(settled, 0) {
        Some(component) => book.oid(component) == Some(next),
        None => false,
    }
}

fn count(book: &Book<'_>, links: Links, settled: usize, fits: bool) -> Told {
    let described = (0..COUNT).filter(|i| book.describe(oid_of(*i)).is_some());
    let linked = (0..COUNT).filter(|i| is_linked(book, oid_of(*i), links.next(*i)));
    let taken = book.taken();
    Told {
        settled,
        described: described.count(),
        linked: linked.count(),
        names: taken.names,
        arrays: taken.arrays,
        fits,
    }
}

pub fn step(
    texts: &Texts,
    finds: finds::memory::Memory<'_>,
    book: Memory<'_>,
    links: Links,
) -> Told {
    let mut book = Book::new(book);
    let Some(mut finds) = Finds::new(finds) else {
        return count(&book, links, 0, false);
    };
    for i in 0..COUNT {
        finds.push(&book, oid_of(links.turn(i)));
    }
    for _ in 0..COUNT {
        if let Some(oid) = finds.next() {
            finds.read(links.row(texts, oid));
        }
    }
    finds.settle(&book);
    let added = finds.added(&book);
    let fits = book.room(added).is_none();
    finds.keep(&mut book);
    count(
        &book,
        links,
        finds.settled_count(),
        fits && book.taken() == added,
    )
}
