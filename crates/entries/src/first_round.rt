// Round 1 of a resolve: for each entry where its name leads, and the rows that it bears on.
ghost use Rattle.std.specs.Prelude.{◌≡◌, ◌<◌, ◌≤◌, ◌∷◌, ◌++◌, [], IfOk, MatchResult, None, Some, flat_map, length, map, slice_index_or};
ghost use Rattle.book.specs.Book.{held_of};
ghost use Rattle.book.specs.Held.{book_held};
ghost use Rattle.catalog.specs.Catalog.{Opened, Shut};
ghost use Rattle.catalog.specs.declared.faults.CatalogFault.TheVariants.{NoAllowance as NoneLeft};
ghost use Rattle.catalog.specs.Meaning.{links_told, oid_told, row_meaning};
ghost use Rattle.finds.specs.Resolving.{entry_lead};
ghost use Rattle.entries.specs.Asking.{AllRead, CameTo, from_here};
ghost use Rattle.entries.specs.FirstRound.{FirstHalted, FirstRead, FirstRefused, FirstTurned, Nothing, row_links};
ghost use Rattle.entries.specs.Notes.{leads_told};
ghost use Rattle.finds.specs.Finds.{queue_of, rows_of};
ghost use Rattle.life.specs.HostCalls.{meant_type};
ghost use Rattle.life.specs.Reading.{read_all, read_entries};
ghost use Rattle.life.specs.RoundOne.{entry_asks, lead};
ghost use Rattle.requests.specs.Asked.{declared_by, type_asked};
ghost use Rattle.resolve.specs.Rounds.{with_all};
ghost use Rattle.resolve.specs.Walks.{known_to};

use crate::asking::{ask_element, ask_full};
use crate::notes::Notes;
use book::tables::Book;
use catalog::faults::CatalogFault;
use catalog::few::Few;
use catalog::questions::TypeCatalog;
use catalog::row::Row;
use faults::fill::FillFault;
use finds::tables::Finds;
use requests::asked::{TypeAsked, name_in};
use resolve::reading::push_links;
use type_info::oid::Oid;

// The OID that a name leads to: the book's answer, or else the catalog's.
fn lead_of<C: TypeCatalog>(
    book: &Book<'_>,
    catalog: &C,
    opened: &C::Round,
    name: &[u8],
) -> Option<Oid>
    ensures { oid_told result ≡ lead (C.meaning catalog.now) (book_held (held_of book.now)) name.now }
{
    match book.oid_of(name) {
        Some(oid) => Some(oid),
        None => catalog.oid_of(opened, name),
    }
}

fn entry_lead<C: TypeCatalog>(
    book: &Book<'_>,
    catalog: &C,
    opened: &C::Round,
    host: &[u8],
    entry: TypeAsked,
) -> Option<Oid>
    ensures { oid_told result ≡ entry_lead (C.meaning catalog.now) (book_held (held_of book.now)) (meant_type host.now (type_asked entry)) }
{
    match entry {
        TypeAsked::Oid(_) => None,
        TypeAsked::Name(span) | TypeAsked::ArrayOf(span) => {
            lead_of(book, catalog, opened, name_in(host, span))
        }
    }
}

// Notes where the name of an entry leads, and asks for the rows that the entry bears on.
fn read_entry<C: TypeCatalog>(
    finds: &mut Finds<'_>,
    notes: &mut Notes<'_>,
    book: &Book<'_>,
    catalog: &C,
    opened: &C::Round,
    host: &[u8],
    entry: TypeAsked,
) -> Result<(), FillFault>
    requires all { AllRead (C.meaning catalog.now) finds.old notes.old }
    ensures came { let c = C.meaning catalog.now in let b = book_held (held_of book.now) in
        CameTo c (from_here (read_all c b (entry_asks c b (meant_type host.now (type_asked entry)))) finds.old notes.old) result finds.new notes.new }
    ensures leads { length (leads_told notes.old) < 256 → leads_told notes.new
        ≡ leads_told notes.old ++ entry_lead (C.meaning catalog.now) (book_held (held_of book.now)) (meant_type host.now (type_asked entry)) ∷ [] }
{
    let lead = entry_lead(book, catalog, opened, host, entry);
    notes.push_lead(lead);
    let Some(oid) = lead else {
        return Ok(());
    };
    match entry {
        TypeAsked::Oid(_) => Ok(()),
        TypeAsked::Name(_) => ask_full(finds, notes, book, catalog, opened, oid),
        TypeAsked::ArrayOf(_) => ask_element(finds, notes, book, catalog, opened, oid),
    }
}

// All entries, one after the other.
fn read_entries<C: TypeCatalog>(
    finds: &mut Finds<'_>,
    notes: &mut Notes<'_>,
    book: &Book<'_>,
    catalog: &C,
    opened: &C::Round,
    host: &[u8],
    entries: &[TypeAsked],
) -> Result<(), FillFault>
    requires all { AllRead (C.meaning catalog.now) finds.old notes.old }
    requires none { leads_told notes.old ≡ [] }
    ensures came { let c = C.meaning catalog.now in let b = book_held (held_of book.now) in
        CameTo c (from_here (read_entries c b (declared_by host.now entries.now)) finds.old notes.old) result finds.new notes.new }
    ensures leads { IfOk result (λ _. length entries.now ≤ 256 →
        leads_told notes.new ≡ map (entry_lead (C.meaning catalog.now) (book_held (held_of book.now))) (declared_by host.now entries.now)) }
{
    for entry in entries {
        read_entry(finds, notes, book, catalog, opened, host, *entry)?;
    }
    Ok(())
}

// The links of a row: none where it is malformed.
fn links_of(row: &Row) -> Few<Oid, 64>
    ensures { links_told result ≡ row_links (Some (row_meaning row.now)) }
{
    match row.shape() {
        Ok(shape) => shape.links,
        Err(_) => Few::new(Oid(0)),
    }
}

// The links of the row at a place, if there is one.
fn links_at(finds: &Finds<'_>, place: usize) -> Few<Oid, 64>
    ensures { links_told result ≡ row_links (slice_index_or (rows_of finds.now) place None) }
{
    let Some((_, row)) = finds.row_at(place) else {
        return Few::new(Oid(0));
    };
    match row {
        Some(row) => links_of(row),
        None => Few::new(Oid(0)),
    }
}

// Pushes the links of all rows that were read.
fn push_found(finds: &mut Finds<'_>, book: &Book<'_>)
    ensures queue { queue_of finds.new ≡ with_all (known_to book.now) (queue_of finds.old) (flat_map row_links (rows_of finds.old)) }
    ensures rows { rows_of finds.new ≡ rows_of finds.old }
{
    for place in 0..finds.row_count() {
        let links = links_at(finds, place);
        push_links(finds, book, links.as_slice());
    }
}

// What an open round 1 asks for: all that the entries bear on. The links of what was read wait then.
fn ask_first<C: TypeCatalog>(
    finds: &mut Finds<'_>,
    notes: &mut Notes<'_>,
    book: &Book<'_>,
    catalog: &C,
    opened: &C::Round,
    host: &[u8],
    entries: &[TypeAsked],
) -> Result<(), FillFault>
    requires nothing { Nothing finds.old notes.old }
    ensures read { let c = C.meaning catalog.now in let b = book_held (held_of book.now) in let ds = declared_by host.now entries.now in
        MatchResult result (λ _. FirstRead c b ds finds.new notes.new) (λ fault. FirstHalted c b ds fault) }
    ensures leads { IfOk result (λ _. length entries.now ≤ 256 →
        leads_told notes.new ≡ map (entry_lead (C.meaning catalog.now) (book_held (held_of book.now))) (declared_by host.now entries.now)) }
{
    read_entries(finds, notes, book, catalog, opened, host, entries)?;
    push_found(finds, book);
    Ok(())
}

fn enter<C: TypeCatalog>(catalog: &mut C) -> Result<C::Round, CatalogFault>
    ensures { MatchResult result
        (λ _. Opened (C.meaning catalog.old) (C.meaning catalog.new))
        (λ fault. (fault ≡ NoneLeft 1) × Shut (C.meaning catalog.old) (C.meaning catalog.new)) }
{
    match catalog.open() {
        Ok(opened) => Ok(opened),
        Err(_) => Err(CatalogFault::NoAllowance { round: 1 }),
    }
}

// Round 1, whether it can be opened or not.
pub(crate) fn first_round<C: TypeCatalog>(
    finds: &mut Finds<'_>,
    notes: &mut Notes<'_>,
    book: &Book<'_>,
    catalog: &mut C,
    host: &[u8],
    entries: &[TypeAsked],
) -> Result<(), FillFault>
    requires nothing { Nothing finds.old notes.old }
    ensures turned { let c = C.meaning catalog.old in let d = C.meaning catalog.new in
        let b = book_held (held_of book.now) in let ds = declared_by host.now entries.now in
        MatchResult result (λ _. FirstTurned c d b ds finds.new notes.new) (λ fault. FirstRefused c d b ds fault) }
    ensures leads { IfOk result (λ _. length entries.now ≤ 256 →
        leads_told notes.new ≡ map (entry_lead (C.meaning catalog.old) (book_held (held_of book.now))) (declared_by host.now entries.now)) }
{
    let opened = enter(catalog)?;
    let read = ask_first(finds, notes, book, catalog, &opened, host, entries);
    catalog.close(opened);
    read
}
