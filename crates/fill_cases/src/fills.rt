// A lab with a domain over a composite of an enum and int4, a row that is malformed and one that leads nowhere.
use book::tables::Book;
use faults::fill::FillFault;
use finds::tables::Finds;
use keys::span::Span;
use offers::offer::{OfferedAttribute, OfferedRow};
use resolve::filling::fill;
use row_table::table::RowTable;
use std::fmt;
use type_info::oid::Oid;

const TEXT: &[u8] = b"sizesmalllargecropwidthpricedatelost";

fn span(start: u32, length: u32) -> Span {
    Span { start, length }
}

fn plain(oid: u32, pretty: Span, typtype: u8) -> OfferedRow<'static> {
    OfferedRow {
        oid: Oid(oid),
        pretty,
        typtype,
        typcategory: b'U',
        typelem: None,
        typbasetype: None,
        rngsubtype: None,
        typarray: None,
        labels: &[],
        attributes: &[],
    }
}

// What is filled with, at which allowance.
pub fn cases() -> [(&'static str, u32, &'static [u32]); 9] {
    [
        ("built-in types", 9, &[23, 1007]),
        ("no allowance", 0, &[50003]),
        ("too small an allowance", 2, &[50003]),
        ("a domain", 9, &[50003]),
        ("again", 9, &[50003, 50002, 50001]),
        ("no row", 9, &[60000]),
        ("a malformed row", 9, &[50004]),
        ("one that leads nowhere", 9, &[23, 50005]),
        ("nothing", 0, &[]),
    ]
}

#[derive(Drop)]
pub struct Lab<'a> {
    book: Book<'a>,
    finds: Finds<'a>,
    rows: RowTable<'a>,
}

// The rounds or the refusal of a fill, and how much the book holds then.
#[derive(Drop)]
pub struct Told {
    what: Result<u8, FillFault>,
    descriptors: usize,
    allowance: u32,
}

impl fmt::Display for Told {
    fn fmt<W: fmt::Write>(&self, f: &mut fmt::Formatter<W>) -> fmt::Result {
        match &self.what {
            Ok(rounds) => write!(f, "{rounds} rounds")?,
            Err(fault) => {
                let told = fault.told();
                write!(
                    f,
                    "refused by {} at {} after {} rounds ({fault})",
                    told.number, told.place, told.rounds
                )?;
            }
        }
        write!(
            f,
            ", {} described, allowance {}",
            self.descriptors, self.allowance
        )
    }
}

impl<'a> Lab<'a> {
    pub fn new(
        book: book::memory::Memory<'a>,
        finds: finds::memory::Memory<'a>,
        rows: row_table::memory::Memory<'a>,
    ) -> Option<Lab<'a>> {
        let mut rows = RowTable::new(rows, 0)?;
        let size = OfferedRow {
            labels: &[span(4, 5), span(9, 5)],
            ..plain(50001, span(0, 4), b'e')
        };
        let crop = OfferedRow {
            attributes: &[
                OfferedAttribute {
                    name: span(0, 4),
                    oid: Oid(50001),
                },
                OfferedAttribute {
                    name: span(18, 5),
                    oid: Oid(23),
                },
            ],
            ..plain(50002, span(14, 4), b'c')
        };
        let price = OfferedRow {
            typbasetype: Some(Oid(50002)),
            ..plain(50003, span(23, 5), b'd')
        };
        let lost = OfferedRow {
            typbasetype: Some(Oid(60000)),
            ..plain(50005, span(32, 4), b'd')
        };
        for row in [size, crop, price, plain(50004, span(28, 4), b'd'), lost] {
            rows.add_row(TEXT, row).ok()?;
        }
        Some(Lab {
            book: Book::new(book),
            finds: Finds::new(finds)?,
            rows,
        })
    }

    pub fn fill(&mut self, allowance: u32, oids: &[u32]) -> Told {
        self.rows.set_allowance(allowance);
        let what = fill(&mut self.book, &mut self.rows, &mut self.finds, oids);
        Told {
            what,
            descriptors: self.book.taken().descriptors,
            allowance: self.rows.allowance(),
        }
    }
}
