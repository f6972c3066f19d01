// How OIDs come to wait, and how a round reads their rows.
ghost use Rattle.std.specs.Prelude.{◌≡◌, ◌<◌, ◌≤◌, MatchResult, length, map};
ghost use Rattle.finds.specs.Finds.{order_of, queue_of, reads_of, rows_of};
ghost use Rattle.keys.specs.Senses.{oid_of};
ghost use Rattle.resolve.specs.Rounds.{RoundRead, RoundRefused, RowRead, RowRefused, with_all};
ghost use Rattle.resolve.specs.Walks.{known_to};

use book::tables::Book;
use catalog::questions::TypeCatalog;
use faults::fill::FillFault;
use finds::tables::Finds;
use type_info::oid::Oid;

// Puts each OID behind those that stand, unless the book knows it, it stands already or there is no place for it.
pub fn push_all(finds: &mut Finds<'_>, book: &Book<'_>, oids: &[u32])
    ensures queue { queue_of finds.new ≡ with_all (known_to book.now) (queue_of finds.old) oids.now }
    ensures rows { rows_of finds.new ≡ rows_of finds.old }
    ensures order { order_of finds.new ≡ order_of finds.old }
    ensures reads { reads_of finds.new ≡ reads_of finds.old }
{
    for oid in oids {
        finds.push(book, Oid(*oid));
    }
}

// The same with the links of a row.
pub fn push_links(finds: &mut Finds<'_>, book: &Book<'_>, links: &[Oid])
    ensures queue { queue_of finds.new ≡ with_all (known_to book.now) (queue_of finds.old) (map oid_of links.now) }
    ensures rows { rows_of finds.new ≡ rows_of finds.old }
    ensures order { order_of finds.new ≡ order_of finds.old }
    ensures reads { reads_of finds.new ≡ reads_of finds.old }
{
    for oid in links {
        finds.push(book, *oid);
    }
}

// Reads the row of the first OID that waits, and pushes its links.
fn read_row<C: TypeCatalog>(
    finds: &mut Finds<'_>,
    book: &Book<'_>,
    catalog: &C,
    opened: &C::Round,
    most: usize,
    round: u8,
) -> Result<(), FillFault>
    requires waits { length (rows_of finds.old) < length (queue_of finds.old) }
    requires most { most ≤ 256 }
    ensures { let c = C.meaning catalog.now in MatchResult result
        (λ _. RowRead c (known_to book.now) most finds.old finds.new)
        (λ fault. RowRefused c most round finds.old fault) }
{
    let Some(oid) = finds.next() else {
        return Ok(());
    };
    if finds.row_count() >= most {
        return Err(FillFault::TooManyRows { oid, round });
    }
    let row = catalog.row(opened, oid);
    finds.read(row);
    let Some(row) = row else {
        return Ok(());
    };
    match row.shape() {
        Ok(shape) => {
            push_links(finds, book, shape.links.as_slice());
            Ok(())
        }
        Err(_) => Err(FillFault::Malformed { oid, round }),
    }
}

// Reads the rows of all OIDs that wait as the round begins.
pub(crate) fn read_rows<C: TypeCatalog>(
    finds: &mut Finds<'_>,
    book: &Book<'_>,
    catalog: &C,
    opened: &C::Round,
    most: usize,
    round: u8,
) -> Result<(), FillFault>
    requires most { most ≤ 256 }
    ensures { let c = C.meaning catalog.now in MatchResult result
        (λ _. RoundRead c (known_to book.now) most finds.old finds.new)
        (λ fault. RoundRefused c most round finds.old fault) }
{
    let end = finds.oid_count();
    while finds.row_count() < end {
        read_row(finds, book, catalog, opened, most, round)?;
    }
    Ok(())
}
