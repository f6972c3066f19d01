// The rounds of a step: each is opened, read and closed, until nothing waits.
ghost use Rattle.std.specs.Prelude.{◌≡◌, ◌+◌, ◌-◌, ◌<◌, ◌≤◌, IfOk, MatchResult, length};
ghost use Rattle.book.specs.Book.{held_of};
ghost use Rattle.book.specs.Held.{book_held};
ghost use Rattle.catalog.specs.Catalog.{Opened, Shut, Spent};
ghost use Rattle.catalog.specs.declared.faults.CatalogFault.TheVariants.{NoAllowance as NoneLeft};
ghost use Rattle.finds.specs.Finds.{ReadFrom, queue_of, reads_of, rows_of};
ghost use Rattle.life.specs.Walk.{walk_from};
ghost use Rattle.resolve.specs.Rounds.{Refused, Turned};
ghost use Rattle.resolve.specs.Walks.{known_to, outcome, rounds_told, walk_at};

use crate::reading::{push_all, read_rows};
use book::tables::Book;
use catalog::faults::CatalogFault;
use catalog::questions::TypeCatalog;
use faults::fill::{FillFault, MOST_ROUNDS};
use finds::memory::MOST_ROWS;
use finds::tables::Finds;

// Opens the round after so many others.
fn enter<C: TypeCatalog>(catalog: &mut C, opened: u8) -> Result<C::Round, CatalogFault>
    requires few { opened < 64 }
    ensures { MatchResult result
        (λ _. Opened (C.meaning catalog.old) (C.meaning catalog.new))
        (λ fault. (fault ≡ NoneLeft (opened + 1)) × Shut (C.meaning catalog.old) (C.meaning catalog.new)) }
{
    match catalog.open() {
        Ok(round) => Ok(round),
        Err(_) => Err(CatalogFault::NoAllowance { round: opened + 1 }),
    }
}

// One round after so many others.
fn one_round<C: TypeCatalog>(
    finds: &mut Finds<'_>,
    book: &Book<'_>,
    catalog: &mut C,
    most: usize,
    opened: u8,
) -> Result<(), FillFault>
    requires most { most ≤ 256 }
    requires few { opened < 64 }
    requires waits { length (rows_of finds.old) < length (queue_of finds.old) }
    ensures { MatchResult result
        (λ _. Turned (C.meaning catalog.old) (C.meaning catalog.new) (known_to book.now) most opened finds.old finds.new)
        (λ fault. Refused (C.meaning catalog.old) (C.meaning catalog.new) (known_to book.now) most opened finds.old fault) }
{
    let round = enter(catalog, opened)?;
    let read = read_rows(finds, book, catalog, &round, most, opened + 1);
    catalog.close(round);
    read
}

// The rounds from the one on that reads what waits, after so many others, where so many rows may be read in the step. How many
// rounds were opened in all.
pub(crate) fn walk_on<C: TypeCatalog>(
    finds: &mut Finds<'_>,
    book: &Book<'_>,
    catalog: &mut C,
    most: usize,
    opened: u8,
) -> Result<u8, FillFault>
    requires most { most ≤ 256 }
    requires few { opened ≤ 64 }
    ensures outcome { outcome result finds.new ≡ walk_at (C.meaning catalog.old) (known_to book.now) most opened finds.old }
    ensures since { opened ≤ rounds_told result }
    ensures cost { Spent (rounds_told result - opened) (C.meaning catalog.old) (C.meaning catalog.new) }
    ensures read { IfOk result (λ _. ReadFrom (C.meaning catalog.old) finds.old → ReadFrom (C.meaning catalog.old) finds.new) }
    ensures all { IfOk result (λ _. reads_of finds.new ≡ queue_of finds.new) }
{
    let mut rounds = opened;
    while finds.row_count() < finds.oid_count() {
        if rounds == MOST_ROUNDS {
            return Err(FillFault::TooManyRounds);
        }
        one_round(finds, book, catalog, most, rounds)?;
        rounds += 1;
    }
    Ok(rounds)
}

// The rounds of a step that asks for these OIDs, whatever was found before. How many rounds were opened.
pub fn walk<C: TypeCatalog>(
    finds: &mut Finds<'_>,
    book: &Book<'_>,
    catalog: &mut C,
    oids: &[u32],
) -> Result<u8, FillFault>
    ensures outcome { outcome result finds.new ≡ walk_from (C.meaning catalog.old) (book_held (held_of book.now)).descriptors oids.now }
    ensures cost { Spent (rounds_told result) (C.meaning catalog.old) (C.meaning catalog.new) }
    ensures read { IfOk result (λ _. ReadFrom (C.meaning catalog.old) finds.new) }
    ensures all { IfOk result (λ _. reads_of finds.new ≡ queue_of finds.new) }
{
    finds.clear();
    push_all(finds, book, oids);
    walk_on(finds, book, catalog, MOST_ROWS, 0)
}

// How many rows may be read in a step beside so many.
fn beside(apart: usize) -> usize
    ensures { result ≡ 256 - apart }
{
    MOST_ROWS.saturating_sub(apart)
}

// The rounds behind the first, in which so many rows were read that are not among the finds. How many rounds were opened.
pub fn go_on<C: TypeCatalog>(
    finds: &mut Finds<'_>,
    book: &Book<'_>,
    catalog: &mut C,
    apart: usize,
) -> Result<u8, FillFault>
    ensures outcome { outcome result finds.new ≡ walk_at (C.meaning catalog.old) (known_to book.now) (256 - apart) 1 finds.old }
    ensures since { 1 ≤ rounds_told result }
    ensures cost { Spent (rounds_told result - 1) (C.meaning catalog.old) (C.meaning catalog.new) }
    ensures read { IfOk result (λ _. ReadFrom (C.meaning catalog.old) finds.old → ReadFrom (C.meaning catalog.old) finds.new) }
    ensures all { IfOk result (λ _. reads_of finds.new ≡ queue_of finds.new) }
{
    walk_on(finds, book, catalog, beside(apart), 1)
}
