// A whole bind: its types, and then its columns.
ghost use Rattle.std.specs.Prelude.{◌≡◌, ◌-◌, ◌<◌, ◌≤◌, IfErr, IfOk, false, length, true};
ghost use Rattle.binding.specs.ColumnRound.{ending_told};
ghost use Rattle.binding.specs.Whole.{binding_asked, bound_ending, wanted, wanted_ending};
ghost use Rattle.book.specs.Book.{held_of};
ghost use Rattle.book.specs.Stands.{Stands};
ghost use Rattle.catalog.specs.Catalog.{Spent};
ghost use Rattle.finds.specs.Columns.{RelatedBy};
ghost use Rattle.life.specs.Calls.{bind};
ghost use Rattle.life.specs.Steps.{keeps_finds, rounds_told};
ghost use Rattle.room.specs.Added.{with_columns};
ghost use Rattle.room.specs.Room.{limited, tables_left};
ghost use Rattle.room.specs.Tables.{Tables};

use crate::columns::column_round;
use crate::memory::ColumnFinds;
use crate::types::fill_types;
use book::tables::Book;
use catalog::questions::ColumnCatalog;
use faults::call::CallFault;
use faults::columns::ColumnsFault;
use finds::tables::Finds;
use requests::asked::FieldAsked;

// How many rounds a bind opened: of types, and of columns.
#[derive(Clone, Copy, PartialEq, Eq, Debug)]
pub struct Rounds {
    pub types: u8,
    pub columns: u8,
}

// The column round behind so many rounds of types, if origins are wanted. How many rounds were opened.
fn origins_round<C: ColumnCatalog>(
    book: &mut Book<'_>,
    catalog: &mut C,
    columns: &mut ColumnFinds<'_>,
    fields: &[FieldAsked],
    origins: bool,
    rounds: u8,
) -> Result<u8, ColumnsFault>
    ensures told { length fields.now ≤ 256 → rounds < 255 → (t : Tables) → Stands (held_of book.old) t →
        ending_told rounds result ≡ wanted_ending origins (C.TypeCatalog.meaning catalog.old) (held_of book.old) t fields.now rounds }
    ensures kept { length fields.now ≤ 256 → let c = C.TypeCatalog.meaning catalog.old in RelatedBy c (held_of book.old) →
        (t : Tables) → Stands (held_of book.old) t →
        IfOk result (λ _. Stands (held_of book.new) (with_columns c t (wanted origins (held_of book.old) fields.now))) }
    ensures cost { rounds < 255 → Spent (rounds_told (ending_told rounds result) - rounds) (C.TypeCatalog.meaning catalog.old) (C.TypeCatalog.meaning catalog.new) }
    ensures capacity { (held_of book.new).capacity ≡ (held_of book.old).capacity }
    ensures unkept { IfErr result (λ _. held_of book.new ≡ held_of book.old) }
    ensures since { rounds < 255 → rounds ≤ rounds_told (ending_told rounds result) }
    ensures types_kept { rounds < 255 → keeps_finds (ending_told rounds result) ≡ true }
{
    if origins {
        column_round(book, catalog, columns, fields, rounds)
    } else {
        Ok(0)
    }
}

// The types and the columns of a bind that may ask the catalog.
fn bind_queried<C: ColumnCatalog>(
    book: &mut Book<'_>,
    catalog: &mut C,
    finds: &mut Finds<'_>,
    columns: &mut ColumnFinds<'_>,
    parameters: &[u32],
    fields: &[FieldAsked],
    origins: bool,
) -> Result<Rounds, CallFault>
    ensures told { length parameters.now ≤ 256 → length fields.now ≤ 256 → (t : Tables) → Stands (held_of book.old) t →
        bound_ending result ≡ (limited (held_of book.old).capacity (C.TypeCatalog.meaning catalog.old) t (bind (binding_asked parameters.now fields.now true origins))).ending }
    ensures left { length parameters.now ≤ 256 → length fields.now ≤ 256 → let c = C.TypeCatalog.meaning catalog.old in RelatedBy c (held_of book.old) →
        (t : Tables) → Stands (held_of book.old) t →
        Stands (held_of book.new) (tables_left (held_of book.old).capacity c t (bind (binding_asked parameters.now fields.now true origins))) }
    ensures cost { Spent (rounds_told (bound_ending result)) (C.TypeCatalog.meaning catalog.old) (C.TypeCatalog.meaning catalog.new) }
    ensures capacity { (held_of book.new).capacity ≡ (held_of book.old).capacity }
    ensures unkept { keeps_finds (bound_ending result) ≡ false → held_of book.new ≡ held_of book.old }
{
    let types = fill_types(book, catalog, finds, parameters, fields)?;
    let columns = origins_round(book, catalog, columns, fields, origins, types)?;
    Ok(Rounds { types, columns })
}

// The types and the columns of a bind go into the book, if it may ask the catalog. How many rounds were opened.
pub fn bind_lists<C: ColumnCatalog>(
    book: &mut Book<'_>,
    catalog: &mut C,
    finds: &mut Finds<'_>,
    columns: &mut ColumnFinds<'_>,
    parameters: &[u32],
    fields: &[FieldAsked],
    queries: bool,
    origins: bool,
) -> Result<Rounds, CallFault>
    ensures told { length parameters.now ≤ 256 → length fields.now ≤ 256 → (t : Tables) → Stands (held_of book.old) t →
        bound_ending result ≡ (limited (held_of book.old).capacity (C.TypeCatalog.meaning catalog.old) t (bind (binding_asked parameters.now fields.now queries origins))).ending }
    ensures left { length parameters.now ≤ 256 → length fields.now ≤ 256 → let c = C.TypeCatalog.meaning catalog.old in RelatedBy c (held_of book.old) →
        (t : Tables) → Stands (held_of book.old) t →
        Stands (held_of book.new) (tables_left (held_of book.old).capacity c t (bind (binding_asked parameters.now fields.now queries origins))) }
    ensures cost { Spent (rounds_told (bound_ending result)) (C.TypeCatalog.meaning catalog.old) (C.TypeCatalog.meaning catalog.new) }
    ensures capacity { (held_of book.new).capacity ≡ (held_of book.old).capacity }
    ensures unkept { keeps_finds (bound_ending result) ≡ false → held_of book.new ≡ held_of book.old }
{
    if queries {
        bind_queried(book, catalog, finds, columns, parameters, fields, origins)
    } else {
        Ok(Rounds {
            types: 0,
            columns: 0,
        })
    }
}
