// A whole fill: its rounds, and then what they found goes into the book.
ghost use Rattle.std.specs.Prelude.{◌≡◌, ℕ, ◌<◌, ◌≤◌, ◌&&◌, [], IfErr, MatchResult, None, false, is_some, length};
ghost use Rattle.book.specs.Book.{held_of};
ghost use Rattle.book.specs.Stands.{Stands};
ghost use Rattle.catalog.specs.Catalog.{Catalog, Laws, Spent};
ghost use Rattle.finds.specs.Finds.{ReadFrom, queue_of, reads_of, rows_of};
ghost use Rattle.life.specs.Calls.{Call, fill as fill_call};
ghost use Rattle.life.specs.Lists.{first_place, is_in};
ghost use Rattle.life.specs.Steps.{keeps_finds};
ghost use Rattle.faults.specs.Faults.{refusal_of};
ghost use Rattle.resolve.specs.Fills.{FullAt, ending_told, left_over};
ghost use Rattle.resolve.specs.Walks.{known_to, rounds_told};
ghost use Rattle.room.specs.Added.{declared_names, types_added, with_types};
ghost use Rattle.room.specs.Room.{limited, tables_left};
ghost use Rattle.room.specs.Sizes.{first_full, sizes_of};
ghost use Rattle.room.specs.Tables.{Tables};

use crate::rounds::walk;
use book::tables::Book;
use catalog::questions::TypeCatalog;
use faults::fill::FillFault;
use finds::tables::Finds;
use type_info::oid::Oid;

// Settles the rows read, and puts them into the book, unless a table has no room for them.
pub fn keep_finds(finds: &mut Finds<'_>, book: &mut Book<'_>, rounds: u8) -> Result<(), FillFault>
    ensures queue { queue_of finds.new ≡ queue_of finds.old }
    ensures rows { rows_of finds.new ≡ rows_of finds.old }
    ensures capacity { (held_of book.new).capacity ≡ (held_of book.old).capacity }
    ensures unkept { IfErr result (λ fault. (held_of book.new ≡ held_of book.old) × ((refusal_of fault).rounds ≡ rounds)) }
    ensures kept { (c : Catalog) → Laws c → ReadFrom c finds.old → (t : Tables) → Stands (held_of book.old) t →
        (call : Call) → declared_names call ≡ [] →
        let full = first_full (held_of book.old).capacity (held_of book.old).taken (sizes_of (types_added c t call (reads_of finds.old) [])) in
        MatchResult result
        (λ _. (full ≡ None) × Stands (held_of book.new) (with_types c t call (reads_of finds.old) []))
        (λ fault. FullAt full rounds fault) }
{
    finds.settle(book);
    if let Some(table) = book.room(finds.added(book)) {
        return Err(FillFault::Full { table, rounds });
    }
    finds.keep(book);
    Ok(())
}

// Whether the OID stands, and its row was read and is there.
pub fn has_row(finds: &Finds<'_>, oid: Oid) -> bool
    ensures { (c : Catalog) → ReadFrom c finds.now → reads_of finds.now ≡ queue_of finds.now →
        result ≡ (is_in oid.0 (reads_of finds.now) && is_some (c.rows oid.0)) }
{
    let Some(place) = finds.place_of(oid) else {
        return false;
    };
    match finds.row_at(place) {
        Some((_, row)) => row.is_some(),
        None => false,
    }
}

// Whether the OID has a row and the book does not know it.
pub fn is_left(finds: &Finds<'_>, book: &Book<'_>, oid: Oid) -> bool
    ensures { (c : Catalog) → ReadFrom c finds.now → reads_of finds.now ≡ queue_of finds.now →
        result ≡ left_over c (known_to book.now) (reads_of finds.now) oid.0 }
{
    !book.knows(oid) && has_row(finds, oid)
}

// The place of the first such OID.
pub fn first_left(finds: &Finds<'_>, book: &Book<'_>, oids: &[u32]) -> Option<usize>
    ensures { (c : Catalog) → ReadFrom c finds.now → reads_of finds.now ≡ queue_of finds.now →
        result ≡ first_place (left_over c (known_to book.now) (reads_of finds.now)) 0 oids.now }
{
    for (place, oid) in oids.iter().enumerate() {
        if is_left(finds, book, Oid(*oid)) {
            return Some(place);
        }
    }
    None
}

// A place is told in 32 bits.
pub fn told_place(place: usize) -> u32
    ensures { place < 4294967296 → result ≡ place }
{
    u32::try_from(place).unwrap_or(u32::MAX)
}

// Fills the book with the types of these OIDs, and of all that they lead to, and tells how many rounds were opened. A list that is
// too long (refusal 1) is refused in a layer above.
pub fn fill<C: TypeCatalog>(
    book: &mut Book<'_>,
    catalog: &mut C,
    finds: &mut Finds<'_>,
    oids: &[u32],
) -> Result<u8, FillFault>
    ensures told { (t : Tables) → Stands (held_of book.old) t → length oids.now ≤ 4294967296 →
        ending_told result ≡ (limited (held_of book.old).capacity (C.meaning catalog.old) t (fill_call oids.now)).ending }
    ensures left { (t : Tables) → Stands (held_of book.old) t →
        Stands (held_of book.new) (tables_left (held_of book.old).capacity (C.meaning catalog.old) t (fill_call oids.now)) }
    ensures cost { Spent (rounds_told result) (C.meaning catalog.old) (C.meaning catalog.new) }
    ensures capacity { (held_of book.new).capacity ≡ (held_of book.old).capacity }
    ensures unkept { keeps_finds (ending_told result) ≡ false → held_of book.new ≡ held_of book.old }
{
    let rounds = walk(finds, book, catalog, oids)?;
    keep_finds(finds, book, rounds)?;
    match first_left(finds, book, oids) {
        Some(place) => Err(FillFault::Unresolved {
            place: told_place(place),
            rounds,
        }),
        None => Ok(rounds),
    }
}
