// What a Resolve declares and reads apart goes into the book.
ghost use Rattle.std.specs.Prelude.{◌≡◌, ℕ, ◌<◌, ◌≤◌, ◌||◌, List, is_some, length, IfSome, None, slice_get, true};
ghost use Rattle.std.specs.Option.{option_map};
ghost use Rattle.book.specs.Book.{held_of};
ghost use Rattle.book.specs.Held.{FewOf, book_held};
ghost use Rattle.book.specs.Sizes.{sizes_told};
ghost use Rattle.book.specs.Stands.{Stands};
ghost use Rattle.catalog.specs.Catalog.{Catalog, Laws};
ghost use Rattle.catalog.specs.Meaning.{oid_told};
ghost use Rattle.catalog.specs.Shape.{Name};
ghost use Rattle.finds.specs.Resolving.{ApartOf, CountedLead, LeadsOf, RoomFor, RoomForAll, apart_kept, apart_size, apart_told, declared_bytes, enough, entry_name, lead_at, lead_kept, lead_kept_if, lead_size, leads_told, left_out, name_length, names_settled, new_leads, size_of_resolved, with_resolved};
ghost use Rattle.finds.specs.Finds.{ReadFrom, reads_of};
ghost use Rattle.finds.specs.Keeping.{SettledBy, each, link_kept, new_link_size, size_of_all};
ghost use Rattle.indexes.specs.Known.{known};
ghost use Rattle.life.specs.Calls.{resolve};
ghost use Rattle.life.specs.HostCalls.{meant_type};
ghost use Rattle.requests.specs.Asked.{declared_by, type_asked};
ghost use Rattle.room.specs.Added.{declared_names, types_added, with_types};
ghost use Rattle.room.specs.Sizes.{first_full, sizes_of};
ghost use Rattle.room.specs.Tables.{Tables};
ghost use Rattle.slots.specs.Text.{lent};
ghost use Rattle.unfolding.specs.Lists.{Mem};

use crate::counting::plus;
use crate::tables::Finds;
use book::sizes::Sizes;
use book::tables::Book;
use indexes::names::NameIndex;
use requests::asked::{TypeAsked, name_in};
use type_info::oid::Oid;

// More than a book can hold.
const MOST_ENTRIES: usize = 65536;

// As much as that many names have, at 128 bytes each.
const MOST_BYTES: usize = 8388608;

fn name_of(host: &[u8], entry: TypeAsked) -> Option<&[u8]>
    ensures { option_map (λ n. n.now) result ≡ entry_name (meant_type host.now (type_asked entry)) }
{
    match entry {
        TypeAsked::Oid(_) => None,
        TypeAsked::Name(span) | TypeAsked::ArrayOf(span) => Some(name_in(host, span)),
    }
}

// The name of the entry at a place, and what it leads to.
fn lead_at<'h>(
    host: &'h [u8],
    entries: &[TypeAsked],
    leads: &[Option<Oid>],
    place: usize,
) -> Option<(&'h [u8], Oid)>
    ensures { option_map (λ r. (r.0.now, r.1.0)) result ≡ lead_at host.now (slice_get entries.now place) (slice_get leads.now place) }
{
    let entry = entries.get(place)?;
    let lead = leads.get(place)?;
    let name = name_of(host, *entry)?;
    Some((name, (*lead)?))
}

// Holds the name of an entry, if what it leads to is known.
fn keep_lead(book: &mut Book<'_>, found: Option<(&[u8], Oid)>)
    ensures { held_of book.new ≡ lead_kept_if (held_of book.old) (option_map (λ r. (r.0.now, r.1.0)) found.entry) }
{
    if let Some((name, oid)) = found {
        if book.knows(oid) {
            book.hold_name(name, oid);
        }
    }
}

fn keep_leads(book: &mut Book<'_>, host: &[u8], entries: &[TypeAsked], leads: &[Option<Oid>])
    ensures { held_of book.new ≡ each lead_kept (held_of book.old) (leads_told host.now entries.now leads.now) }
{
    for place in 0..entries.len() {
        let found = lead_at(host, entries, leads, place);
        keep_lead(book, found);
    }
}

// Holds the array link of an element, if it has one.
fn keep_link(book: &mut Book<'_>, element: Oid, array: Option<Oid>)
    ensures { held_of book.new ≡ link_kept (held_of book.old) element.0 (oid_told array) }
{
    if let Some(array) = array {
        book.hold_array(element, array);
    }
}

fn keep_apart(book: &mut Book<'_>, apart: &[(Oid, Option<Oid>)])
    ensures { held_of book.new ≡ each apart_kept (held_of book.old) (apart_told apart.now) }
{
    for found in apart {
        keep_link(book, found.0, found.1);
    }
}

// How long the name of an entry is: not at all for an OID.
fn name_bytes(host: &[u8], entry: TypeAsked) -> usize
    ensures length { result ≡ name_length (entry_name (meant_type host.now (type_asked entry))) }
    ensures few { result < 4294967296 }
{
    match name_of(host, entry) {
        Some(name) => name.len(),
        None => 0,
    }
}

fn bytes_of(host: &[u8], entries: &[TypeAsked]) -> usize
    requires { length entries.now ≤ 65536 }
    ensures { result ≡ declared_bytes (declared_by host.now entries.now) }
{
    let mut bytes = 0;
    for entry in entries {
        bytes += name_bytes(host, *entry);
    }
    bytes
}

fn is_enough(host: &[u8], entries: &[TypeAsked], apart: usize, seen: &NameIndex<'_, Oid>) -> bool
    ensures { result ≡ enough (declared_by host.now entries.now) apart seen.now }
{
    entries.len() <= MOST_ENTRIES
        && apart <= MOST_ENTRIES
        && entries.len() <= seen.capacity()
        && bytes_of(host, entries) <= seen.bytes_lent().min(MOST_BYTES)
}

impl<'a> Finds<'a> {
    // Whether the name is that of the row of this OID, which was settled.
    fn names_settled(&self, name: &[u8], oid: Oid) -> bool
        ensures { result ≡ names_settled self.now (name.now, oid.0) }
    {
        if self.settled.find(oid).is_none() {
            return false;
        }
        let Some(place) = self.place_of(oid) else {
            return false;
        };
        match self.find_at(place) {
            Some((_, row)) => name == row.pretty.get(),
            None => false,
        }
    }
}

// Whether the name takes nothing, whatever the other entries declare.
fn leaves_out(book: &Book<'_>, finds: &Finds<'_>, name: &[u8], oid: Oid) -> bool
    ensures { result ≡ left_out (held_of book.now) finds.now (name.now, oid.0) }
{
    book.oid_of(name).is_some() || !finds.is_known(book, oid) || finds.names_settled(name, oid)
}

// Whether the name takes nothing, or is counted already.
fn passes_over(
    book: &Book<'_>,
    finds: &Finds<'_>,
    name: &[u8],
    oid: Oid,
    seen: &NameIndex<'_, Oid>,
) -> bool
    ensures { result ≡ (left_out (held_of book.now) finds.now (name.now, oid.0) || is_some (known seen.now name.now)) }
{
    leaves_out(book, finds, name, oid) || seen.find(name).is_some()
}

// What the name of an entry takes that is not counted already. It is counted then.
fn count_lead(
    book: &Book<'_>,
    finds: &Finds<'_>,
    found: Option<(&[u8], Oid)>,
    seen: &mut NameIndex<'_, Oid>,
) -> Sizes
    requires { RoomFor (option_map (λ r. (r.0.now, r.1.0)) found) seen.old }
    ensures counted { CountedLead (held_of book.now) finds.now (option_map (λ r. (r.0.now, r.1.0)) found.entry) seen.old seen.new (sizes_told result) }
    ensures few { FewOf 4294967296 (sizes_told result) }
{
    let Some((name, oid)) = found else {
        return Sizes::NONE;
    };
    if passes_over(book, finds, name, oid, seen) {
        return Sizes::NONE;
    }
    seen.intern(name, oid);
    Sizes {
        names: 1,
        text: name.len(),
        ..Sizes::NONE
    }
}

fn count_leads(
    book: &Book<'_>,
    finds: &Finds<'_>,
    host: &[u8],
    entries: &[TypeAsked],
    leads: &[Option<Oid>],
    seen: &mut NameIndex<'_, Oid>,
) -> Sizes
    requires none { (n : Name) → known seen.old n ≡ None }
    requires room { RoomForAll (leads_told host.now entries.now leads.now) seen.old }
    requires few { FewOf 8388608 (size_of_all lead_size (new_leads (held_of book.now) finds.now (leads_told host.now entries.now leads.now))) }
    ensures size { sizes_told result ≡ size_of_all lead_size (new_leads (held_of book.now) finds.now (leads_told host.now entries.now leads.now)) }
    ensures few { FewOf 8388608 (sizes_told result) }
{
    let mut sizes = Sizes::NONE;
    for place in 0..entries.len() {
        let found = lead_at(host, entries, leads, place);
        let more = count_lead(book, finds, found, seen);
        sizes = plus(sizes, more);
    }
    sizes
}

// What the array link of an element takes, if it has one that the book does not hold.
fn link_size(book: &Book<'_>, element: Oid, array: Option<Oid>) -> Sizes
    ensures size { sizes_told result ≡ new_link_size (held_of book.now) element.0 (oid_told array) }
    ensures few { FewOf 1 (sizes_told result) }
{
    if array.is_some() && book.array_of(element).is_none() {
        return Sizes {
            arrays: 1,
            ..Sizes::NONE
        };
    }
    Sizes::NONE
}

fn count_apart(book: &Book<'_>, apart: &[(Oid, Option<Oid>)]) -> Sizes
    requires { length apart.now ≤ 65536 }
    ensures size { sizes_told result ≡ size_of_all (apart_size (held_of book.now)) (apart_told apart.now) }
    ensures few { FewOf 65536 (sizes_told result) }
{
    let mut sizes = Sizes::NONE;
    for found in apart {
        let more = link_size(book, found.0, found.1);
        sizes = plus(sizes, more);
    }
    sizes
}

// How much a step of a Resolve takes beyond what the book holds: what it found, the names of the entries that lead to what is known
// once it is done, and the array links of the rows that were read for these alone. The index is for the count alone. Nothing where it
// has fewer slots than there are entries or fewer bytes than their names have, or there are too many of these for any book.
pub fn resolve_added(
    book: &Book<'_>,
    finds: &Finds<'_>,
    host: &[u8],
    entries: &[TypeAsked],
    leads: &[Option<Oid>],
    apart: &[(Oid, Option<Oid>)],
    seen: &mut NameIndex<'_, Oid>,
) -> Option<Sizes>
    ensures told { is_some result ≡ enough (declared_by host.now entries.now) (length apart.now) seen.old }
    ensures enough { length entries.now ≤ 256 → length apart.now ≤ 256 →
        ((n : Name) → Mem n (declared_names (resolve (declared_by host.now entries.now))) → length n ≤ 128) →
        512 ≤ length seen.old.slots → 32768 ≤ lent seen.old.text → is_some result ≡ true }
    ensures size { IfSome result (λ sizes. sizes_told sizes ≡ size_of_resolved (held_of book.now) finds.now (leads_told host.now entries.now leads.now) (apart_told apart.now)) }
    ensures added { (c : Catalog) → Laws c → ReadFrom c finds.now → SettledBy c (book_held (held_of book.now)).descriptors finds.now →
        (t : Tables) → Stands (held_of book.now) t →
        (es : List ℕ) → LeadsOf c (held_of book.now) (declared_by host.now entries.now) leads.now → ApartOf c finds.now apart.now es →
        IfSome result (λ sizes. sizes_told sizes ≡ sizes_of (types_added c t (resolve (declared_by host.now entries.now)) (reads_of finds.now) es)) }
{
    if !is_enough(host, entries, apart.len(), seen) {
        return None;
    }
    seen.clear();
    let names = count_leads(book, finds, host, entries, leads, seen);
    let links = count_apart(book, apart);
    let more = plus(names, links);
    Some(plus(finds.added(book), more))
}

// Holds what the step found, then the name of each entry that leads to what the book knows by then, then the array links of the rows
// that were read for these alone. What is held already or has no room is left out.
pub fn keep_resolved(
    book: &mut Book<'_>,
    finds: &Finds<'_>,
    host: &[u8],
    entries: &[TypeAsked],
    leads: &[Option<Oid>],
    apart: &[(Oid, Option<Oid>)],
)
    ensures held { held_of book.new ≡ with_resolved (held_of book.old) finds.now (leads_told host.now entries.now leads.now) (apart_told apart.now) }
    ensures capacity { (held_of book.new).capacity ≡ (held_of book.old).capacity }
    ensures kept { (c : Catalog) → Laws c → ReadFrom c finds.now → SettledBy c (book_held (held_of book.old)).descriptors finds.now →
        (t : Tables) → Stands (held_of book.old) t →
        (es : List ℕ) → LeadsOf c (held_of book.old) (declared_by host.now entries.now) leads.now → ApartOf c finds.now apart.now es →
        first_full (held_of book.old).capacity (held_of book.old).taken (sizes_of (types_added c t (resolve (declared_by host.now entries.now)) (reads_of finds.now) es)) ≡ None →
        Stands (held_of book.new) (with_types c t (resolve (declared_by host.now entries.now)) (reads_of finds.now) es) }
{
    finds.keep(book);
    keep_leads(book, host, entries, leads);
    keep_apart(book, apart);
}
