// The same over two lists: OIDs, and then the types of fields.
ghost use Rattle.std.specs.Prelude.{◌≡◌, ◌+◌, ◌≤◌, IfOk, length};
ghost use Rattle.book.specs.Book.{held_of};
ghost use Rattle.book.specs.Held.{book_held};
ghost use Rattle.catalog.specs.Catalog.{Catalog, Spent};
ghost use Rattle.finds.specs.Finds.{ReadFrom, order_of, queue_of, reads_of, rows_of};
ghost use Rattle.life.specs.Lists.{first_place};
ghost use Rattle.life.specs.Walk.{walk_from};
ghost use Rattle.resolve.specs.Fills.{left_over};
ghost use Rattle.resolve.specs.Lists.{both_lists, types_of};
ghost use Rattle.resolve.specs.Rounds.{with_all};
ghost use Rattle.resolve.specs.Walks.{known_to, outcome, rounds_told};

use crate::filling::{first_left, is_left};
use crate::reading::push_all;
use crate::rounds::walk_on;
use book::tables::Book;
use catalog::questions::TypeCatalog;
use faults::fill::FillFault;
use finds::memory::MOST_ROWS;
use finds::tables::Finds;
use requests::asked::FieldAsked;

// Puts the type of each field behind the OIDs that stand, unless the book knows it, it stands already or there is no place for it.
fn push_fields(finds: &mut Finds<'_>, book: &Book<'_>, fields: &[FieldAsked])
    ensures queue { queue_of finds.new ≡ with_all (known_to book.now) (queue_of finds.old) (types_of fields.now) }
    ensures rows { rows_of finds.new ≡ rows_of finds.old }
    ensures order { order_of finds.new ≡ order_of finds.old }
    ensures reads { reads_of finds.new ≡ reads_of finds.old }
{
    for field in fields {
        finds.push(book, field.oid);
    }
}

// The rounds of a step that asks for these OIDs and then for the types of these fields, whatever was found before. How many rounds were
// opened.
pub fn walk_lists<C: TypeCatalog>(
    finds: &mut Finds<'_>,
    book: &Book<'_>,
    catalog: &mut C,
    oids: &[u32],
    fields: &[FieldAsked],
) -> Result<u8, FillFault>
    ensures outcome { outcome result finds.new
        ≡ walk_from (C.meaning catalog.old) (book_held (held_of book.now)).descriptors (both_lists oids.now fields.now) }
    ensures cost { Spent (rounds_told result) (C.meaning catalog.old) (C.meaning catalog.new) }
    ensures read { IfOk result (λ _. ReadFrom (C.meaning catalog.old) finds.new) }
    ensures all { IfOk result (λ _. reads_of finds.new ≡ queue_of finds.new) }
{
    finds.clear();
    push_all(finds, book, oids);
    push_fields(finds, book, fields);
    walk_on(finds, book, catalog, MOST_ROWS, 0)
}

// The place of the first field whose type has a row that the book does not know.
fn first_left_field(finds: &Finds<'_>, book: &Book<'_>, fields: &[FieldAsked]) -> Option<usize>
    ensures { (c : Catalog) → ReadFrom c finds.now → reads_of finds.now ≡ queue_of finds.now →
        result ≡ first_place (left_over c (known_to book.now) (reads_of finds.now)) 0 (types_of fields.now) }
{
    for (place, field) in fields.iter().enumerate() {
        if is_left(finds, book, field.oid) {
            return Some(place);
        }
    }
    None
}

// The place of the first OID that has a row and that the book does not know: places go on from the OIDs through the fields.
pub fn first_left_of_both(
    finds: &Finds<'_>,
    book: &Book<'_>,
    oids: &[u32],
    fields: &[FieldAsked],
) -> Option<usize>
    ensures { length oids.now + length fields.now ≤ 4294967296 →
        (c : Catalog) → ReadFrom c finds.now → reads_of finds.now ≡ queue_of finds.now →
        result ≡ first_place (left_over c (known_to book.now) (reads_of finds.now)) 0 (both_lists oids.now fields.now) }
{
    if let Some(place) = first_left(finds, book, oids) {
        return Some(place);
    }
    let place = first_left_field(finds, book, fields)?;
    Some(oids.len().saturating_add(place))
}
