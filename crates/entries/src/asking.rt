// The rows that one entry bears on: each is asked for unless it is known, was read already or may not be read any more.
ghost use Rattle.std.specs.Prelude.{◌≡◌, ◌||◌, IfOk, false, is_some, map, not, true};
ghost use Rattle.book.specs.Book.{held_of};
ghost use Rattle.book.specs.Held.{book_held};
ghost use Rattle.catalog.specs.Catalog.{Catalog};
ghost use Rattle.catalog.specs.Meaning.{oid_told, row_told};
ghost use Rattle.entries.specs.Asking.{AllRead, CameTo, from_here, rows_left};
ghost use Rattle.entries.specs.Notes.{apart_of, leads_told};
ghost use Rattle.finds.specs.Finds.{queue_of, rows_of};
ghost use Rattle.life.specs.Calls.{array_link};
ghost use Rattle.life.specs.Lists.{is_in};
ghost use Rattle.life.specs.Reading.{read_all, read_question};
ghost use Rattle.life.specs.RoundOne.{element_asks, for_array, in_full, link, miscoded, spared};
ghost use Rattle.life.specs.Walk.{is_ill};
ghost use Rattle.resolve.specs.Walks.{known_to};

use crate::notes::Notes;
use book::tables::Book;
use catalog::codes::{TypCategory, TypType};
use catalog::questions::TypeCatalog;
use catalog::row::Row;
use faults::fill::FillFault;
use finds::memory::MOST_ROWS;
use finds::tables::Finds;
use type_info::oid::Oid;

fn is_malformed(row: &Option<Row>) -> bool
    ensures { result ≡ is_ill (row_told row.now) }
{
    match row {
        Some(row) => row.shape().is_err(),
        None => false,
    }
}

// Whether one of the two codes is not listed.
fn is_miscoded(row: &Option<Row>) -> bool
    ensures { result ≡ miscoded (row_told row.now) }
{
    match row {
        Some(row) => {
            TypType::try_from(row.typtype).is_err()
                || TypCategory::try_from(row.typcategory).is_err()
        }
        None => false,
    }
}

fn typarray(row: &Option<Row>) -> Option<Oid>
    ensures { oid_told result ≡ array_link (row_told row.now) }
{
    match row {
        Some(row) => row.typarray,
        None => None,
    }
}

// How many rows more may be read.
fn rows_left(finds: &Finds<'_>, notes: &Notes<'_>) -> usize
    ensures { result ≡ rows_left finds.now notes.now }
{
    MOST_ROWS
        .saturating_sub(notes.apart().len())
        .saturating_sub(finds.row_count())
}

// Whether the row of an OID needs not be asked for: it is known or stands.
fn is_answered(finds: &Finds<'_>, book: &Book<'_>, oid: Oid) -> bool
    ensures { result ≡ (known_to book.now oid.0 || is_in oid.0 (queue_of finds.now)) }
{
    book.knows(oid) || finds.place_of(oid).is_some()
}

// An element that is read in full, or whose array is held, is not read for its typarray alone.
fn is_spared(book: &Book<'_>, element: Oid) -> bool
    ensures { result ≡ (not (known_to book.now element.0) || is_some ((book_held (held_of book.now)).arrays element.0)) }
{
    !book.knows(element) || book.array_of(element).is_some()
}

// Whether the row of an element needs not be asked for its typarray alone.
fn is_linked(notes: &Notes<'_>, book: &Book<'_>, element: Oid) -> bool
    ensures { result ≡ (not (known_to book.now element.0) || is_some ((book_held (held_of book.now)).arrays element.0) || is_in element.0 (apart_of notes.now)) }
{
    is_spared(book, element) || notes.array_apart(element).is_some()
}

// The row of an OID that is not known and does not stand.
fn read_full<C: TypeCatalog>(
    finds: &mut Finds<'_>,
    notes: &Notes<'_>,
    book: &Book<'_>,
    catalog: &C,
    opened: &C::Round,
    oid: Oid,
) -> Result<(), FillFault>
    requires new { (known_to book.now oid.0 || is_in oid.0 (queue_of finds.old)) ≡ false }
    requires all { AllRead (C.meaning catalog.now) finds.old notes.now }
    ensures came { let c = C.meaning catalog.now in
        CameTo c (from_here (read_question c (book_held (held_of book.now)) (in_full oid.0)) finds.old notes.now) result finds.new notes.now }
    ensures stands { IfOk result (λ _. is_in oid.0 (queue_of finds.new) ≡ true) }
{
    if rows_left(finds, notes) == 0 {
        return Err(FillFault::TooManyRows { oid, round: 1 });
    }
    let row = catalog.row(opened, oid);
    finds.push(book, oid);
    finds.read(row);
    if is_malformed(&row) {
        return Err(FillFault::Malformed { oid, round: 1 });
    }
    Ok(())
}

// Asks in full for the row of an OID.
pub(crate) fn ask_full<C: TypeCatalog>(
    finds: &mut Finds<'_>,
    notes: &Notes<'_>,
    book: &Book<'_>,
    catalog: &C,
    opened: &C::Round,
    oid: Oid,
) -> Result<(), FillFault>
    requires all { AllRead (C.meaning catalog.now) finds.old notes.now }
    ensures came { let c = C.meaning catalog.now in
        CameTo c (from_here (read_question c (book_held (held_of book.now)) (in_full oid.0)) finds.old notes.now) result finds.new notes.now }
    ensures stands { IfOk result (λ _. (known_to book.now oid.0 || is_in oid.0 (queue_of finds.new)) ≡ true) }
{
    if is_answered(finds, book, oid) {
        return Ok(());
    }
    read_full(finds, notes, book, catalog, opened, oid)
}

// The row of a known element, for its typarray alone.
fn read_apart<C: TypeCatalog>(
    finds: &Finds<'_>,
    notes: &mut Notes<'_>,
    book: &Book<'_>,
    catalog: &C,
    opened: &C::Round,
    element: Oid,
) -> Result<(), FillFault>
    requires new { (spared (C.meaning catalog.now) (book_held (held_of book.now)) element.0 || is_in element.0 (apart_of notes.old)) ≡ false }
    requires all { AllRead (C.meaning catalog.now) finds.now notes.old }
    ensures came { let c = C.meaning catalog.now in
        CameTo c (from_here (read_question c (book_held (held_of book.now)) (for_array element.0)) finds.now notes.old) result finds.now notes.new }
    ensures stands { IfOk result (λ _. is_in element.0 (apart_of notes.new) ≡ true) }
    ensures leads { leads_told notes.new ≡ leads_told notes.old }
{
    if rows_left(finds, notes) == 0 {
        return Err(FillFault::TooManyRows {
            oid: element,
            round: 1,
        });
    }
    let row = catalog.row(opened, element);
    if is_miscoded(&row) {
        return Err(FillFault::Malformed {
            oid: element,
            round: 1,
        });
    }
    notes.push_apart(element, typarray(&row));
    Ok(())
}

// Asks for the row of an element for its typarray alone.
pub(crate) fn ask_apart<C: TypeCatalog>(
    finds: &Finds<'_>,
    notes: &mut Notes<'_>,
    book: &Book<'_>,
    catalog: &C,
    opened: &C::Round,
    element: Oid,
) -> Result<(), FillFault>
    requires all { AllRead (C.meaning catalog.now) finds.now notes.old }
    ensures came { let c = C.meaning catalog.now in
        CameTo c (from_here (read_question c (book_held (held_of book.now)) (for_array element.0)) finds.now notes.old) result finds.now notes.new }
    ensures stands { IfOk result
        (λ _. (spared (C.meaning catalog.now) (book_held (held_of book.now)) element.0 || is_in element.0 (apart_of notes.new)) ≡ true) }
    ensures leads { leads_told notes.new ≡ leads_told notes.old }
{
    if is_linked(notes, book, element) {
        return Ok(());
    }
    read_apart(finds, notes, book, catalog, opened, element)
}

// The typarray of the row of an element that was read in full.
fn array_read(finds: &Finds<'_>, element: Oid) -> Option<Oid>
    ensures { (c : Catalog) → rows_of finds.now ≡ map c.rows (queue_of finds.now) → is_in element.0 (queue_of finds.now) ≡ true →
        oid_told result ≡ array_link (c.rows element.0) }
{
    let place = finds.place_of(element)?;
    let (_, row) = finds.row_at(place)?;
    row?.typarray
}

// The array of an element whose row needs not be read any more.
fn link_of(finds: &Finds<'_>, notes: &Notes<'_>, book: &Book<'_>, element: Oid) -> Option<Oid>
    ensures { (c : Catalog) → AllRead c finds.now notes.now →
        (known_to book.now element.0 || is_in element.0 (queue_of finds.now)) ≡ true →
        (spared c (book_held (held_of book.now)) element.0 || is_in element.0 (apart_of notes.now)) ≡ true →
        oid_told result ≡ link c (book_held (held_of book.now)) element.0 }
{
    if let Some(array) = book.array_of(element) {
        return Some(array);
    }
    match notes.array_apart(element) {
        Some(array) => array,
        None => array_read(finds, element),
    }
}

// Asks for the rows of an element and of its array.
pub(crate) fn ask_element<C: TypeCatalog>(
    finds: &mut Finds<'_>,
    notes: &mut Notes<'_>,
    book: &Book<'_>,
    catalog: &C,
    opened: &C::Round,
    element: Oid,
) -> Result<(), FillFault>
    requires all { AllRead (C.meaning catalog.now) finds.old notes.old }
    ensures came { let c = C.meaning catalog.now in let b = book_held (held_of book.now) in
        CameTo c (from_here (read_all c b (element_asks c b (Some element.0))) finds.old notes.old) result finds.new notes.new }
    ensures leads { leads_told notes.new ≡ leads_told notes.old }
{
    ask_full(finds, notes, book, catalog, opened, element)?;
    ask_apart(finds, notes, book, catalog, opened, element)?;
    match link_of(finds, notes, book, element) {
        Some(array) => ask_full(finds, notes, book, catalog, opened, array),
        None => Ok(()),
    }
}
