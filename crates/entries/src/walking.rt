// The rounds of a resolve: nothing is asked where the book answers all entries, and else round 1 is opened, and the rounds after it.
ghost use Rattle.std.specs.Prelude.{◌≡◌, ◌≤◌, [], IfOk, length, map};
ghost use Rattle.std.specs.List.{list_any};
ghost use Rattle.std.specs.Option.{option_and_then};
ghost use Rattle.book.specs.Book.{held_of};
ghost use Rattle.book.specs.Held.{book_held};
ghost use Rattle.catalog.specs.Catalog.{Spent};
ghost use Rattle.catalog.specs.Meaning.{oid_told};
ghost use Rattle.finds.specs.Resolving.{entry_lead};
ghost use Rattle.entries.specs.Asking.{with_link};
ghost use Rattle.entries.specs.FirstRound.{Nothing};
ghost use Rattle.entries.specs.Notes.{apart_told, leads_told};
ghost use Rattle.entries.specs.Walked.{Walked};
ghost use Rattle.entries.specs.Wants.{held_lead, misses, wants};
ghost use Rattle.finds.specs.Finds.{ReadFrom, queue_of, reads_of};
ghost use Rattle.life.specs.HostCalls.{meant_type};
ghost use Rattle.life.specs.RoundOne.{first_opened, for_arrays_alone, resolve_walk, round_one};
ghost use Rattle.requests.specs.Asked.{declared_by, type_asked};
ghost use Rattle.resolve.specs.Walks.{outcome, rounds_told};

use crate::first_round::first_round;
use crate::notes::Notes;
use book::tables::Book;
use catalog::questions::TypeCatalog;
use faults::fill::FillFault;
use finds::tables::Finds;
use requests::asked::{TypeAsked, name_in};
use resolve::rounds::go_on;
use type_info::oid::Oid;

// Whether an OID is not there or not known to the book.
fn misses(book: &Book<'_>, oid: Option<Oid>) -> bool
    ensures { result ≡ misses (book_held (held_of book.now)) (oid_told oid) }
{
    match oid {
        Some(oid) => !book.knows(oid),
        None => true,
    }
}

// The OID that the book holds under the name of an entry.
fn held_lead(book: &Book<'_>, host: &[u8], entry: TypeAsked) -> Option<Oid>
    ensures { oid_told result ≡ held_lead (book_held (held_of book.now)) (meant_type host.now (type_asked entry)) }
{
    match entry {
        TypeAsked::Oid(_) => None,
        TypeAsked::Name(span) | TypeAsked::ArrayOf(span) => book.oid_of(name_in(host, span)),
    }
}

fn held_array(book: &Book<'_>, element: Option<Oid>) -> Option<Oid>
    ensures { oid_told result ≡ option_and_then (book_held (held_of book.now)).arrays (oid_told element) }
{
    book.array_of(element?)
}

// Whether something stands for the entry in round 1.
fn wants(book: &Book<'_>, host: &[u8], entry: TypeAsked) -> bool
    ensures { result ≡ wants (book_held (held_of book.now)) (meant_type host.now (type_asked entry)) }
{
    let lead = held_lead(book, host, entry);
    match entry {
        TypeAsked::Oid(_) => false,
        TypeAsked::Name(_) => misses(book, lead),
        TypeAsked::ArrayOf(_) => misses(book, lead) || misses(book, held_array(book, lead)),
    }
}

fn any_wants(book: &Book<'_>, host: &[u8], entries: &[TypeAsked]) -> bool
    ensures { result ≡ list_any (λ x. wants (book_held (held_of book.now)) (meant_type host.now (type_asked x))) entries.now }
{
    entries.iter().any(|entry| wants(book, host, *entry))
}

// Notes what the book holds under the names of the entries.
fn note_held(notes: &mut Notes<'_>, book: &Book<'_>, host: &[u8], entries: &[TypeAsked])
    requires none { leads_told notes.old ≡ [] }
    ensures leads { length entries.now ≤ 256 → leads_told notes.new ≡ map (held_lead (book_held (held_of book.now))) (declared_by host.now entries.now) }
    ensures apart { apart_told notes.new ≡ apart_told notes.old }
{
    for entry in entries {
        let lead = held_lead(book, host, *entry);
        notes.push_lead(lead);
    }
}

// The rounds of entries for which something stands.
fn walk_wanted<C: TypeCatalog>(
    finds: &mut Finds<'_>,
    notes: &mut Notes<'_>,
    book: &Book<'_>,
    catalog: &mut C,
    host: &[u8],
    entries: &[TypeAsked],
) -> Result<u8, FillFault>
    requires nothing { Nothing finds.old notes.old }
    ensures walked { Walked (C.meaning catalog.old) (C.meaning catalog.new) (book_held (held_of book.now)) (declared_by host.now entries.now)
        (let c = C.meaning catalog.old in first_opened c (book_held (held_of book.now)) c.allowance (round_one c (book_held (held_of book.now)) (declared_by host.now entries.now)))
        result finds.new notes.new }
    ensures leads { IfOk result (λ _. length entries.now ≤ 256 →
        leads_told notes.new ≡ map (entry_lead (C.meaning catalog.old) (book_held (held_of book.now))) (declared_by host.now entries.now)) }
{
    first_round(finds, notes, book, catalog, host, entries)?;
    go_on(finds, book, catalog, notes.apart().len())
}

// Asks for what the entries lead to: the names, the elements' rows and the rows of all OIDs in round 1, and on from there round by
// round. How many rounds were opened. A list that is too long (refusal 1) is refused in a layer above.
pub fn walk_entries<C: TypeCatalog>(
    finds: &mut Finds<'_>,
    notes: &mut Notes<'_>,
    book: &Book<'_>,
    catalog: &mut C,
    host: &[u8],
    entries: &[TypeAsked],
) -> Result<u8, FillFault>
    ensures outcome { outcome result finds.new ≡ resolve_walk (C.meaning catalog.old) (book_held (held_of book.now)) (declared_by host.now entries.now) }
    ensures cost { Spent (rounds_told result) (C.meaning catalog.old) (C.meaning catalog.new) }
    ensures read { IfOk result (λ _. ReadFrom (C.meaning catalog.old) finds.new) }
    ensures all { IfOk result (λ _. reads_of finds.new ≡ queue_of finds.new) }
    ensures leads { IfOk result (λ _. length entries.now ≤ 256 →
        leads_told notes.new ≡ map (entry_lead (C.meaning catalog.old) (book_held (held_of book.now))) (declared_by host.now entries.now)) }
    ensures apart { IfOk result (λ _. apart_told notes.new ≡ map (with_link (C.meaning catalog.old))
        (for_arrays_alone (round_one (C.meaning catalog.old) (book_held (held_of book.now)) (declared_by host.now entries.now)))) }
{
    finds.clear();
    notes.clear();
    if any_wants(book, host, entries) {
        return walk_wanted(finds, notes, book, catalog, host, entries);
    }
    note_held(notes, book, host, entries);
    Ok(0)
}
