// Resolve: its rounds, what goes into the book, and the OIDs of its entries.
ghost use Rattle.std.specs.Prelude.{◌≡◌, ℕ, ◌∷◌, ◌≤◌, IfErr, IfOk, List, MatchResult, false, true, None, length, map, option_map};
ghost use Rattle.book.specs.Book.{held_of};
ghost use Rattle.book.specs.Held.{book_held};
ghost use Rattle.book.specs.Stands.{Stands};
ghost use Rattle.book.specs.Sizes.{position_of};
ghost use Rattle.book.specs.Lived.{HasLived, LawHolds};
ghost use Rattle.calls.specs.Answers.{oids_by_law};
ghost use Rattle.calls.specs.Endings.{Did, TellsOf, ending_of};
ghost use Rattle.calls.specs.Resolving.{EntriesDone, EntriesKept, EntriesRefused, Few, Noted};
ghost use Rattle.catalog.specs.Catalog.{Catalog, Grows, Laws, Spent};
ghost use Rattle.entries.specs.Answers.{all_written, asked_for, led, without_oid};
ghost use Rattle.entries.specs.Notes.{leads_told};
ghost use Rattle.faults.specs.Faults.{refusal_of};
ghost use Rattle.finds.specs.Keeping.{SettledBy};
ghost use Rattle.finds.specs.Finds.{ReadFrom, queue_of, reads_of, rows_of};
ghost use Rattle.life.specs.Calls.{resolve as resolve_meant};
ghost use Rattle.life.specs.Keep.{call_event};
ghost use Rattle.finds.specs.Resolving.{entry_lead};
ghost use Rattle.life.specs.Buffers.{written_over};
ghost use Rattle.life.specs.HostCalls.{host_resolve};
ghost use Rattle.life.specs.Life.{Agrees};
ghost use Rattle.life.specs.Lists.{first_place};
ghost use Rattle.life.specs.Outcomes.{closing};
ghost use Rattle.life.specs.Resolve.{oids};
ghost use Rattle.life.specs.Steps.{Event, accepts, keeps_finds, rounds_told as told_rounds};
ghost use Rattle.requests.specs.Early.{resolve_asked as resolve_of};
ghost use Rattle.requests.specs.Asked.{declared_by};
ghost use Rattle.resolve.specs.Fills.{FullAt, left_over};
ghost use Rattle.resolve.specs.Walks.{known_to, rounds_told};
ghost use Rattle.room.specs.Asked.{asked_within};
ghost use Rattle.room.specs.Added.{types_added, with_types};
ghost use Rattle.room.specs.Room.{limited};
ghost use Rattle.room.specs.Sizes.{first_full, sizes_of};
ghost use Rattle.room.specs.Tables.{Tables, contents};

use crate::early::fault_of;
use crate::work::Work;
use book::sizes::BookTable;
use book::tables::Book;
use catalog::questions::TypeCatalog;
use entries::answering::{first_unresolved, first_without, write_oids};
use entries::notes::Notes;
use entries::walking::walk_entries;
use faults::call::CallFault;
use faults::fill::FillFault;
use finds::declared::{keep_resolved, resolve_added};
use finds::tables::Finds;
use indexes::names::NameIndex;
use keys::span::Span;
use requests::asked::TypeAsked;
use requests::early::resolve_refused;
use resolve::filling::told_place;
use slots::map::Entry;
use type_info::oid::Oid;

// The first table without room for what the step found, settled, with the names of the entries and the arrays read apart.
fn full_table(
    finds: &Finds<'_>,
    notes: &Notes<'_>,
    text: &mut [u8],
    names: &mut [Entry<Span, Oid>],
    book: &Book<'_>,
    host: &[u8],
    entries: &[TypeAsked],
) -> Option<BookTable>
    ensures { (c : Catalog) → Laws c → ReadFrom c finds.now → SettledBy c (book_held (held_of book.now)).descriptors finds.now →
        (t : Tables) → Stands (held_of book.now) t → Few host.now entries.now → 32768 ≤ length text.old → 512 ≤ length names.old →
        (es : List ℕ) → Noted c (held_of book.now) finds.now notes.now (declared_by host.now entries.now) es →
        option_map position_of result ≡ first_full (held_of book.now).capacity (held_of book.now).taken (sizes_of (types_added c t (resolve_meant (declared_by host.now entries.now)) (reads_of finds.now) es)) }
{
    let mut seen = NameIndex::new(text, names);
    let leads = notes.leads();
    let apart = notes.apart();
    match resolve_added(book, finds, host, entries, leads, apart, &mut seen) {
        Some(added) => book.room(added),
        None => Some(BookTable::Text),
    }
}

// Settles the rows read, and puts all that was found into the book, unless a table has no room for it.
fn keep_entries(
    finds: &mut Finds<'_>,
    notes: &Notes<'_>,
    text: &mut [u8],
    names: &mut [Entry<Span, Oid>],
    book: &mut Book<'_>,
    host: &[u8],
    entries: &[TypeAsked],
    rounds: u8,
) -> Result<(), FillFault>
    ensures queue { queue_of finds.new ≡ queue_of finds.old }
    ensures rows { rows_of finds.new ≡ rows_of finds.old }
    ensures capacity { (held_of book.new).capacity ≡ (held_of book.old).capacity }
    ensures unkept { IfErr result (λ fault. (held_of book.new ≡ held_of book.old) × ((refusal_of fault).rounds ≡ rounds)) }
    ensures kept { (c : Catalog) → Laws c → ReadFrom c finds.old → (t : Tables) → Stands (held_of book.old) t →
        Few host.now entries.now → 32768 ≤ length text.old → 512 ≤ length names.old →
        (es : List ℕ) → Noted c (held_of book.old) finds.old notes.now (declared_by host.now entries.now) es →
        let full = first_full (held_of book.old).capacity (held_of book.old).taken (sizes_of (types_added c t (resolve_meant (declared_by host.now entries.now)) (reads_of finds.old) es)) in
        MatchResult result
        (λ _. (full ≡ None) × Stands (held_of book.new) (with_types c t (resolve_meant (declared_by host.now entries.now)) (reads_of finds.old) es))
        (λ fault. FullAt full rounds fault) }
{
    finds.settle(book);
    if let Some(table) = full_table(finds, notes, text, names, book, host, entries) {
        return Err(FillFault::Full { table, rounds });
    }
    keep_resolved(book, finds, host, entries, notes.leads(), notes.apart());
    Ok(())
}

// Fills the book with the types that the entries lead to, and with their names and arrays. How many rounds were opened.
fn fill_entries<C: TypeCatalog>(
    finds: &mut Finds<'_>,
    notes: &mut Notes<'_>,
    text: &mut [u8],
    names: &mut [Entry<Span, Oid>],
    book: &mut Book<'_>,
    catalog: &mut C,
    host: &[u8],
    entries: &[TypeAsked],
) -> Result<u8, FillFault>
    ensures told { Few host.now entries.now → 32768 ≤ length text.old → 512 ≤ length names.old →
        (t : Tables) → Stands (held_of book.old) t → Agrees (C.meaning catalog.old) (contents t) →
        MatchResult result
        (λ rounds. EntriesKept (held_of book.old).capacity (C.meaning catalog.old) t (declared_by host.now entries.now) rounds (reads_of finds.new) (held_of book.new))
        (λ fault. EntriesRefused (held_of book.old).capacity (C.meaning catalog.old) t (declared_by host.now entries.now) fault (held_of book.new)) }
    ensures cost { Spent (rounds_told result) (C.meaning catalog.old) (C.meaning catalog.new) }
    ensures capacity { (held_of book.new).capacity ≡ (held_of book.old).capacity }
    ensures unkept { IfErr result (λ _. held_of book.new ≡ held_of book.old) }
    ensures read { IfOk result (λ _. ReadFrom (C.meaning catalog.old) finds.new) }
    ensures all { IfOk result (λ _. reads_of finds.new ≡ queue_of finds.new) }
    ensures leads { IfOk result (λ _. length entries.now ≤ 256 →
        leads_told notes.new ≡ map (entry_lead (C.meaning catalog.old) (book_held (held_of book.old))) (declared_by host.now entries.now)) }
{
    let rounds = walk_entries(finds, notes, book, catalog, host, entries)?;
    keep_entries(finds, notes, text, names, book, host, entries, rounds)?;
    Ok(rounds)
}

// How a resolve ends once all is kept: refused at its first unresolved entry, or else at its first entry without an OID, or with the
// OIDs written.
fn conclude(
    finds: &Finds<'_>,
    notes: &Notes<'_>,
    book: &Book<'_>,
    entries: &[TypeAsked],
    rounds: u8,
    out: &mut [u32],
) -> Result<u8, CallFault>
    ensures ends { length entries.now ≤ 256 → (c : Catalog) → ReadFrom c finds.now → reads_of finds.now ≡ queue_of finds.now → (host : List ℕ) →
        ending_of result ≡ closing rounds
        (first_place (λ x. asked_for (book_held (held_of book.now)).arrays (left_over c (known_to book.now) (reads_of finds.now)) x.0 x.1) 0 (led host entries.now notes.now))
        (first_place (λ x. without_oid (book_held (held_of book.now)).arrays (known_to book.now) x.0 x.1) 0 (led host entries.now notes.now)) }
    ensures cost { told_rounds (ending_of result) ≡ rounds }
    ensures keeps { keeps_finds (ending_of result) ≡ true }
    ensures written { accepts (ending_of result) ≡ true → (host : List ℕ) → length entries.now ≤ length out.old →
        out.new ≡ written_over (all_written (book_held (held_of book.now)).arrays (known_to book.now) (led host entries.now notes.now)) out.old }
    ensures unwritten { accepts (ending_of result) ≡ false → out.new ≡ out.old }
{
    if let Some(place) = first_unresolved(finds, notes, book, entries) {
        return Err(CallFault::Fill(FillFault::Unresolved {
            place: told_place(place),
            rounds,
        }));
    }
    if let Some(place) = first_without(notes, book, entries) {
        return Err(CallFault::NoOid {
            place: told_place(place),
            rounds,
        });
    }
    write_oids(notes, book, entries, out);
    Ok(rounds)
}

// The resolve but for what is refused before any round, and without its life.
fn resolve_entries<C: TypeCatalog>(
    finds: &mut Finds<'_>,
    notes: &mut Notes<'_>,
    text: &mut [u8],
    names: &mut [Entry<Span, Oid>],
    book: &mut Book<'_>,
    catalog: &mut C,
    host: &[u8],
    entries: &[TypeAsked],
    out: &mut [u32],
) -> Result<u8, CallFault>
    ensures did { Few host.now entries.now → 32768 ≤ length text.old → 512 ≤ length names.old →
        (t : Tables) → Stands (held_of book.old) t → Agrees (C.meaning catalog.old) (contents t) →
        EntriesDone (held_of book.old).capacity (C.meaning catalog.old) t (declared_by host.now entries.now) (ending_of result) (held_of book.new) }
    ensures cost { Spent (told_rounds (ending_of result)) (C.meaning catalog.old) (C.meaning catalog.new) }
    ensures capacity { (held_of book.new).capacity ≡ (held_of book.old).capacity }
    ensures unkept { keeps_finds (ending_of result) ≡ false → held_of book.new ≡ held_of book.old }
    ensures written { accepts (ending_of result) ≡ true → Few host.now entries.now → 32768 ≤ length text.old → 512 ≤ length names.old →
        (t : Tables) → Stands (held_of book.old) t → Agrees (C.meaning catalog.old) (contents t) → length entries.now ≤ length out.old →
        out.new ≡ written_over (oids (C.meaning catalog.old) (contents t) (limited (held_of book.old).capacity (C.meaning catalog.old) t (resolve_meant (declared_by host.now entries.now))).left.descriptors (declared_by host.now entries.now)) out.old }
    ensures unwritten { accepts (ending_of result) ≡ false → out.new ≡ out.old }
{
    let rounds = fill_entries(finds, notes, text, names, book, catalog, host, entries)?;
    conclude(finds, notes, book, entries, rounds, out)
}

// The resolve, but that nothing is said of the life of the book.
fn resolve_asked<C: TypeCatalog>(
    book: &mut Book<'_>,
    catalog: &mut C,
    work: &mut Work<'_>,
    host: &[u8],
    entries: &[TypeAsked],
    out: &mut [u32],
) -> Result<u8, CallFault>
    ensures did { (t : Tables) → Stands (held_of book.old) t → Agrees (C.meaning catalog.old) (contents t) →
        Did (C.meaning catalog.old) (held_of book.old) (held_of book.new) host.now (host_resolve (resolve_of entries.now (length out.old))) (ending_of result) t }
    ensures cost { Spent (told_rounds (ending_of result)) (C.meaning catalog.old) (C.meaning catalog.new) }
    ensures capacity { (held_of book.new).capacity ≡ (held_of book.old).capacity }
    ensures unkept { keeps_finds (ending_of result) ≡ false → held_of book.new ≡ held_of book.old }
    ensures written { (t : Tables) → Stands (held_of book.old) t → Agrees (C.meaning catalog.old) (contents t) →
        out.new ≡ written_over (oids_by_law (held_of book.old).capacity host.now (C.meaning catalog.old) t (resolve_of entries.now (length out.old))) out.old }
    ensures unwritten { accepts (ending_of result) ≡ false → out.new ≡ out.old }
{
    match resolve_refused(host, entries, out.len()) {
        Some(early) => Err(fault_of(early)),
        None => resolve_entries(
            &mut work.finds,
            &mut work.notes,
            work.text,
            work.names,
            book,
            catalog,
            host,
            entries,
            out,
        ),
    }
}

// Resolves: what the entries lead to goes into the book, with their names and arrays; then the OID of each entry is written over the
// buffer. A resolve that is refused writes nothing.
pub fn resolve<C: TypeCatalog>(
    book: &mut Book<'_>,
    catalog: &mut C,
    work: &mut Work<'_>,
    host: &[u8],
    entries: &[TypeAsked],
    out: &mut [u32],
) -> Result<u8, CallFault>
    ensures did { (t : Tables) → Stands (held_of book.old) t → Agrees (C.meaning catalog.old) (contents t) →
        Did (C.meaning catalog.old) (held_of book.old) (held_of book.new) host.now (host_resolve (resolve_of entries.now (length out.old))) (ending_of result) t }
    ensures layer { IfErr result (λ fault. (t : Tables) → Stands (held_of book.old) t → Agrees (C.meaning catalog.old) (contents t) →
        TellsOf (asked_within (held_of book.old).capacity host.now (C.meaning catalog.old) t (host_resolve (resolve_of entries.now (length out.old)))).ending fault) }
    ensures cost { Spent (told_rounds (ending_of result)) (C.meaning catalog.old) (C.meaning catalog.new) }
    ensures capacity { (held_of book.new).capacity ≡ (held_of book.old).capacity }
    ensures unkept { keeps_finds (ending_of result) ≡ false → held_of book.new ≡ held_of book.old }
    ensures lives { (h : List Event) → (d : Catalog) → HasLived h d (held_of book.old) → Grows d (C.meaning catalog.old) →
        LawHolds (call_event (C.meaning catalog.old) (resolve_meant (declared_by host.now entries.now)) (ending_of result) ∷ h) (C.meaning catalog.new) (held_of book.new) }
    ensures written { (t : Tables) → Stands (held_of book.old) t → Agrees (C.meaning catalog.old) (contents t) →
        out.new ≡ written_over (oids_by_law (held_of book.old).capacity host.now (C.meaning catalog.old) t (resolve_of entries.now (length out.old))) out.old }
    ensures unwritten { accepts (ending_of result) ≡ false → out.new ≡ out.old }
{
    resolve_asked(book, catalog, work, host, entries, out)
}
