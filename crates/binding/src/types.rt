// The types of a bind: they are asked for, and go into the book, as those of a fill do.
ghost use Rattle.std.specs.Prelude.{◌≡◌, ◌≤◌, IfOk, MatchResult, false, length};
ghost use Rattle.binding.specs.Types.{AsksFor, TypesKept, TypesRefused};
ghost use Rattle.book.specs.Book.{held_of};
ghost use Rattle.book.specs.Stands.{Stands};
ghost use Rattle.catalog.specs.Catalog.{Spent};
ghost use Rattle.life.specs.Calls.{Binding};
ghost use Rattle.life.specs.Steps.{keeps_finds};
ghost use Rattle.resolve.specs.Fills.{ending_told};
ghost use Rattle.resolve.specs.Walks.{rounds_told};
ghost use Rattle.room.specs.Tables.{Tables};

use book::tables::Book;
use catalog::questions::TypeCatalog;
use faults::fill::FillFault;
use finds::tables::Finds;
use requests::asked::FieldAsked;
use resolve::filling::{keep_finds, told_place};
use resolve::lists::{first_left_of_both, walk_lists};

// Fills the book with the types of the parameters and of the fields, and of all that they lead to, and tells how many rounds were
// opened. What is left then are the columns of the fields.
pub fn fill_types<C: TypeCatalog>(
    book: &mut Book<'_>,
    catalog: &mut C,
    finds: &mut Finds<'_>,
    parameters: &[u32],
    fields: &[FieldAsked],
) -> Result<u8, FillFault>
    ensures told { length parameters.now ≤ 256 → length fields.now ≤ 256 →
        (t : Tables) → Stands (held_of book.old) t → (q : Binding) → AsksFor q parameters.now fields.now →
        MatchResult result
        (λ rounds. TypesKept (held_of book.old).capacity (C.meaning catalog.old) t q rounds (held_of book.new))
        (λ fault. TypesRefused (held_of book.old).capacity (C.meaning catalog.old) t q fault (held_of book.new)) }
    ensures few { IfOk result (λ rounds. rounds ≤ 64) }
    ensures cost { Spent (rounds_told result) (C.meaning catalog.old) (C.meaning catalog.new) }
    ensures capacity { (held_of book.new).capacity ≡ (held_of book.old).capacity }
    ensures unkept { keeps_finds (ending_told result) ≡ false → held_of book.new ≡ held_of book.old }
    ensures columns { (t : Tables) → Stands (held_of book.old) t → (held_of book.new).columns ≡ (held_of book.old).columns }
    ensures relations { (t : Tables) → Stands (held_of book.old) t → (held_of book.new).relations ≡ (held_of book.old).relations }
{
    let rounds = walk_lists(finds, book, catalog, parameters, fields)?;
    keep_finds(finds, book, rounds)?;
    match first_left_of_both(finds, book, parameters, fields) {
        Some(place) => Err(FillFault::Unresolved {
            place: told_place(place),
            rounds,
        }),
        None => Ok(rounds),
    }
}
