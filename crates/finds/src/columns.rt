// What a column round found goes into the book.
ghost use Rattle.std.specs.Prelude.{◌≡◌, ℕ, ◌≤◌, ◌||◌, List, is_some, length, MatchOption, None};
ghost use Rattle.book.specs.Book.{held_of};
ghost use Rattle.book.specs.Held.{FewOf};
ghost use Rattle.book.specs.Sizes.{sizes_told};
ghost use Rattle.book.specs.Stands.{Stands};
ghost use Rattle.catalog.specs.Catalog.{Catalog, Laws};
ghost use Rattle.catalog.specs.Meaning.{column_meaning};
ghost use Rattle.finds.specs.Columns.{CountedIn, RelatedBy, column_kept, column_size, columns_found, columns_told, size_of_columns};
ghost use Rattle.finds.specs.Keeping.{each};
ghost use Rattle.indexes.specs.Known.{HasEmpty, by_oid};
ghost use Rattle.keys.specs.Senses.{Pair, pair_of};
ghost use Rattle.room.specs.Added.{columns_added as added_by_law, with_columns};
ghost use Rattle.room.specs.Sizes.{first_full, sizes_of};
ghost use Rattle.room.specs.Tables.{Tables};
ghost use Rattle.slots.specs.Slots.{filled};
ghost use Rattle.unfolding.specs.Lists.{Distinct};

use crate::counting::plus;
use book::sizes::Sizes;
use book::tables::Book;
use catalog::values::Column;
use indexes::whole::OidIndex;
use keys::kinds::Attribute;

// More than a book can hold.
const MOST_COLUMNS: usize = 65536;

// What the column takes beyond what the book holds, where these relations are counted already. Its own is counted then.
fn count_column(
    book: &Book<'_>,
    seen: &mut OidIndex<'_, u32>,
    at: Attribute,
    column: &Column,
) -> Sizes
    requires { HasEmpty seen.old }
    ensures size { sizes_told result ≡ column_size (is_some ((held_of book.now).columns (pair_of at)))
        (is_some ((held_of book.now).relations at.relation.0) || is_some (by_oid seen.old at.relation.0)) (column_meaning column.now) }
    ensures seen { CountedIn (is_some ((held_of book.now).columns (pair_of at)))
        (is_some ((held_of book.now).relations at.relation.0) || is_some (by_oid seen.old at.relation.0)) seen.old at.relation.0 seen.new }
    ensures few { FewOf 16384 (sizes_told result) }
{
    if book.column(at.relation, at.number).is_some() {
        return Sizes::NONE;
    }
    let own = Sizes {
        text: column.name.get().len(),
        columns: 1,
        ..Sizes::NONE
    };
    if book.relates(at.relation) || seen.find(at.relation).is_some() {
        return own;
    }
    seen.intern(at.relation, 0);
    Sizes {
        text: own.text + column.table.get().len(),
        relations: 1,
        ..own
    }
}

fn count_columns(
    book: &Book<'_>,
    columns: &[(Attribute, Column)],
    seen: &mut OidIndex<'_, u32>,
) -> Sizes
    requires none { (r : ℕ) → by_oid seen.old r ≡ None }
    requires empty { filled seen.old ≡ 0 }
    requires few { length columns.now ≤ 65536 }
    requires slots { length columns.now ≤ length seen.old }
    ensures { sizes_told result ≡ size_of_columns (held_of book.now) (columns_told columns.now) }
{
    let mut sizes = Sizes::NONE;
    for found in columns {
        let more = count_column(book, seen, found.0, &found.1);
        sizes = plus(sizes, more);
    }
    sizes
}

// How much the columns take beyond what the book holds, a relation of several of them once. The index is for the count alone. Nothing
// where it has fewer slots than there are columns, or these are too many for any book.
pub fn columns_added(
    book: &Book<'_>,
    columns: &[(Attribute, Column)],
    seen: &mut OidIndex<'_, u32>,
) -> Option<Sizes>
    ensures size { MatchOption result (length columns.now ≤ 65536 → length columns.now ≤ length seen.old → ⊥)
        (λ sizes. sizes_told sizes ≡ size_of_columns (held_of book.now) (columns_told columns.now)) }
    ensures added { (c : Catalog) → (asked : List Pair) → Distinct asked → columns_told columns.now ≡ columns_found c asked →
        (t : Tables) → Stands (held_of book.now) t →
        MatchOption result (length columns.now ≤ 65536 → length columns.now ≤ length seen.old → ⊥)
        (λ sizes. sizes_told sizes ≡ sizes_of (added_by_law c t asked)) }
{
    if columns.len() > MOST_COLUMNS || columns.len() > seen.capacity() {
        return None;
    }
    seen.clear();
    Some(count_columns(book, columns, seen))
}

// Holds the columns, in turn, each with the table of its relation. What is held already or has no room is left out.
pub fn keep_columns(book: &mut Book<'_>, columns: &[(Attribute, Column)])
    ensures held { held_of book.new ≡ each column_kept (held_of book.old) (columns_told columns.now) }
    ensures capacity { (held_of book.new).capacity ≡ (held_of book.old).capacity }
    ensures kept { (c : Catalog) → Laws c → RelatedBy c (held_of book.old) → (asked : List Pair) → columns_told columns.now ≡ columns_found c asked →
        (t : Tables) → Stands (held_of book.old) t →
        first_full (held_of book.old).capacity (held_of book.old).taken (sizes_of (added_by_law c t asked)) ≡ None →
        Stands (held_of book.new) (with_columns c t asked) }
{
    for found in columns {
        let table = found.1.table.get();
        let name = found.1.name.get();
        book.hold_column(found.0, table, name);
    }
}
