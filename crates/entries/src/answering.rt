// What a resolve answers once all that it found is in the book.
ghost use Rattle.std.specs.Prelude.{◌≡◌, ℕ, ◌<◌, ◌≤◌, IfSome, List, length, option_and_then};
ghost use Rattle.book.specs.Book.{held_of};
ghost use Rattle.book.specs.Held.{book_held};
ghost use Rattle.catalog.specs.Catalog.{Catalog};
ghost use Rattle.catalog.specs.Meaning.{oid_told};
ghost use Rattle.entries.specs.Answers.{all_written, asked_for, if_passes, lead_at, led, oid_if, oid_or_zero, passes, without_oid};
ghost use Rattle.entries.specs.Notes.{leads_told};
ghost use Rattle.finds.specs.Finds.{ReadFrom, queue_of, reads_of};
ghost use Rattle.life.specs.Buffers.{written_over};
ghost use Rattle.life.specs.HostCalls.{meant_type};
ghost use Rattle.life.specs.Lists.{first_place};
ghost use Rattle.requests.specs.Asked.{type_asked};
ghost use Rattle.resolve.specs.Fills.{left_over};
ghost use Rattle.resolve.specs.Walks.{known_to};

use crate::notes::Notes;
use book::tables::Book;
use finds::tables::Finds;
use requests::asked::TypeAsked;
use resolve::filling::is_left;
use type_info::oid::Oid;

// What the name of the entry at a place leads to.
fn lead_at(notes: &Notes<'_>, place: usize) -> Option<Oid>
    ensures { oid_told result ≡ lead_at (leads_told notes.now) place }
{
    *notes.leads().get(place)?
}

fn is_left_if(finds: &Finds<'_>, book: &Book<'_>, oid: Option<Oid>) -> bool
    ensures { (c : Catalog) → ReadFrom c finds.now → reads_of finds.now ≡ queue_of finds.now →
        result ≡ passes (left_over c (known_to book.now) (reads_of finds.now)) (oid_told oid) }
{
    match oid {
        Some(oid) => is_left(finds, book, oid),
        None => false,
    }
}

fn if_known(book: &Book<'_>, oid: Option<Oid>) -> Option<Oid>
    ensures { oid_told result ≡ if_passes (known_to book.now) (oid_told oid) }
{
    match oid {
        Some(oid) if book.knows(oid) => Some(oid),
        Some(_) | None => None,
    }
}

// The array of an element that may be there.
fn array_if(book: &Book<'_>, element: Option<Oid>) -> Option<Oid>
    ensures { oid_told result ≡ option_and_then (book_held (held_of book.now)).arrays (oid_told element) }
{
    book.array_of(element?)
}

// Whether an OID that the entry asked for has a row and is not known.
fn is_unresolved(finds: &Finds<'_>, book: &Book<'_>, entry: TypeAsked, lead: Option<Oid>) -> bool
    ensures { (c : Catalog) → ReadFrom c finds.now → reads_of finds.now ≡ queue_of finds.now → (host : List ℕ) →
        result ≡ asked_for (book_held (held_of book.now)).arrays (left_over c (known_to book.now) (reads_of finds.now)) (meant_type host (type_asked entry)) (oid_told lead) }
{
    match entry {
        TypeAsked::Oid(_) => false,
        TypeAsked::Name(_) => is_left_if(finds, book, lead),
        TypeAsked::ArrayOf(_) => {
            is_left_if(finds, book, lead) || is_left_if(finds, book, array_if(book, lead))
        }
    }
}

// The OID of the entry, if it has one.
fn oid_for(book: &Book<'_>, entry: TypeAsked, lead: Option<Oid>) -> Option<Oid>
    ensures { (host : List ℕ) →
        oid_told result ≡ oid_if (book_held (held_of book.now)).arrays (known_to book.now) (meant_type host (type_asked entry)) (oid_told lead) }
{
    match entry {
        TypeAsked::Oid(oid) => Some(oid),
        TypeAsked::Name(_) => if_known(book, lead),
        TypeAsked::ArrayOf(_) => if_known(book, array_if(book, lead)),
    }
}

// The same of the entry at a place, by what was noted of it.
fn is_unresolved_at(
    finds: &Finds<'_>,
    notes: &Notes<'_>,
    book: &Book<'_>,
    entry: TypeAsked,
    place: usize,
) -> bool
    ensures { (c : Catalog) → ReadFrom c finds.now → reads_of finds.now ≡ queue_of finds.now → (host : List ℕ) →
        result ≡ asked_for (book_held (held_of book.now)).arrays (left_over c (known_to book.now) (reads_of finds.now)) (meant_type host (type_asked entry)) (lead_at (leads_told notes.now) place) }
{
    is_unresolved(finds, book, entry, lead_at(notes, place))
}

fn oid_at(notes: &Notes<'_>, book: &Book<'_>, entry: TypeAsked, place: usize) -> Option<Oid>
    ensures { (host : List ℕ) →
        oid_told result ≡ oid_if (book_held (held_of book.now)).arrays (known_to book.now) (meant_type host (type_asked entry)) (lead_at (leads_told notes.now) place) }
{
    oid_for(book, entry, lead_at(notes, place))
}

fn lacks_oid_at(notes: &Notes<'_>, book: &Book<'_>, entry: TypeAsked, place: usize) -> bool
    ensures { (host : List ℕ) →
        result ≡ without_oid (book_held (held_of book.now)).arrays (known_to book.now) (meant_type host (type_asked entry)) (lead_at (leads_told notes.now) place) }
{
    oid_at(notes, book, entry, place).is_none()
}

// The place of the first entry with such an OID.
pub fn first_unresolved(
    finds: &Finds<'_>,
    notes: &Notes<'_>,
    book: &Book<'_>,
    entries: &[TypeAsked],
) -> Option<usize>
    ensures below { IfSome result (λ place. place < length entries.now) }
    ensures first { (c : Catalog) → ReadFrom c finds.now → reads_of finds.now ≡ queue_of finds.now → (host : List ℕ) →
        result ≡ first_place (λ x. asked_for (book_held (held_of book.now)).arrays (left_over c (known_to book.now) (reads_of finds.now)) x.0 x.1) 0 (led host entries.now notes.now) }
{
    for (place, entry) in entries.iter().enumerate() {
        if is_unresolved_at(finds, notes, book, *entry, place) {
            return Some(place);
        }
    }
    None
}

// The place of the first entry without an OID.
pub fn first_without(notes: &Notes<'_>, book: &Book<'_>, entries: &[TypeAsked]) -> Option<usize>
    ensures below { IfSome result (λ place. place < length entries.now) }
    ensures first { (host : List ℕ) →
        result ≡ first_place (λ x. without_oid (book_held (held_of book.now)).arrays (known_to book.now) x.0 x.1) 0 (led host entries.now notes.now) }
{
    for (place, entry) in entries.iter().enumerate() {
        if lacks_oid_at(notes, book, *entry, place) {
            return Some(place);
        }
    }
    None
}

// What is written for the entry at a place: 0 where it has no OID.
fn written_at(notes: &Notes<'_>, book: &Book<'_>, entry: TypeAsked, place: usize) -> u32
    ensures { (host : List ℕ) →
        result ≡ oid_or_zero (oid_if (book_held (held_of book.now)).arrays (known_to book.now) (meant_type host (type_asked entry)) (lead_at (leads_told notes.now) place)) }
{
    match oid_at(notes, book, entry, place) {
        Some(oid) => oid.0,
        None => 0,
    }
}

// Writes the OIDs of the entries over the buffer, from its start on: nothing where it is too short.
pub fn write_oids(notes: &Notes<'_>, book: &Book<'_>, entries: &[TypeAsked], out: &mut [u32])
    ensures written { (host : List ℕ) → length entries.now ≤ length out.old →
        out.new ≡ written_over (all_written (book_held (held_of book.now)).arrays (known_to book.now) (led host entries.now notes.now)) out.old }
    ensures short { length out.old < length entries.now → out.new ≡ out.old }
{
    if entries.len() > out.len() {
        return;
    }
    for (place, entry) in entries.iter().enumerate() {
        out[place] = written_at(notes, book, *entry, place);
    }
}
