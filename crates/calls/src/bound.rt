// Bind, as a host calls it.
ghost use Rattle.std.specs.Prelude.{◌≡◌, ◌∷◌, ◌≤◌, IfErr, IfOk, List, MatchResult, drop, false, length, map};
ghost use Rattle.binding.specs.Whole.{binding_asked, bound_ending};
ghost use Rattle.binding.specs.Writing.{ColumnsSized, column_told, columns_answered, type_told, types_answered};
ghost use Rattle.binding.specs.declared.writing.BoundColumn.{BoundColumn};
ghost use Rattle.book.specs.Book.{held_of};
ghost use Rattle.book.specs.Lived.{HasLived, LawHolds};
ghost use Rattle.book.specs.Stands.{Stands};
ghost use Rattle.calls.specs.Answers.{AnswersByLaw};
ghost use Rattle.calls.specs.Endings.{Did, TellsOf, bind_call};
ghost use Rattle.catalog.specs.Catalog.{Catalog, Grows, Spent};
ghost use Rattle.finds.specs.Columns.{RelatedBy};
ghost use Rattle.life.specs.Buffers.{written_over};
ghost use Rattle.life.specs.Calls.{bind as bind_meant};
ghost use Rattle.life.specs.Keep.{call_event};
ghost use Rattle.life.specs.Steps.{Event, keeps_finds, rounds_told};
ghost use Rattle.requests.specs.Early.{bind_asked as bind_lists_asked};
ghost use Rattle.requests.specs.declared.asked.FieldAsked.{FieldAsked};
ghost use Rattle.room.specs.Asked.{asked_left, asked_within};
ghost use Rattle.room.specs.Tables.{Tables};

use crate::early::fault_of;
use crate::work::Work;
use binding::whole::{Rounds, bind_lists};
use binding::writing::{BoundColumn, BoundType, write_columns, write_types};
use book::tables::Book;
use catalog::questions::ColumnCatalog;
use faults::call::CallFault;
use requests::asked::FieldAsked;
use requests::early::bind_refused;

// The bind over answer buffers of so many slots, but that nothing is written.
fn bind_asked<C: ColumnCatalog>(
    book: &mut Book<'_>,
    catalog: &mut C,
    work: &mut Work<'_>,
    host: &[u8],
    parameters: &[u32],
    fields: &[FieldAsked],
    queries: bool,
    origins: bool,
    parameter_slots: usize,
    column_slots: usize,
) -> Result<Rounds, CallFault>
    ensures ends { (t : Tables) → Stands (held_of book.old) t →
        bound_ending result ≡ (asked_within (held_of book.old).capacity host.now (C.TypeCatalog.meaning catalog.old) t
        (bind_call parameters.now fields.now queries origins parameter_slots column_slots)).ending }
    ensures left { let c = C.TypeCatalog.meaning catalog.old in RelatedBy c (held_of book.old) → (t : Tables) → Stands (held_of book.old) t →
        Stands (held_of book.new) (asked_left (held_of book.old).capacity host.now c t
        (bind_call parameters.now fields.now queries origins parameter_slots column_slots)) }
    ensures cost { Spent (rounds_told (bound_ending result)) (C.TypeCatalog.meaning catalog.old) (C.TypeCatalog.meaning catalog.new) }
    ensures capacity { (held_of book.new).capacity ≡ (held_of book.old).capacity }
    ensures unkept { keeps_finds (bound_ending result) ≡ false → held_of book.new ≡ held_of book.old }
    ensures within { IfOk result (λ _. (length fields.now ≤ 256) × (length parameters.now ≤ parameter_slots) × (length fields.now ≤ column_slots)) }
{
    match bind_refused(host, parameters, fields, parameter_slots, column_slots) {
        Some(early) => Err(fault_of(early)),
        None => bind_lists(
            book,
            catalog,
            &mut work.finds,
            &mut work.columns,
            parameters,
            fields,
            queries,
            origins,
        ),
    }
}

// Binds: the types of the parameters and of the fields go into the book, and the columns that the fields come from, as far as the
// catalog may be asked; then the types of the parameters are written over the one buffer and the columns of the result over the other.
// A bind that is refused writes nothing.
pub fn bind<C: ColumnCatalog>(
    book: &mut Book<'_>,
    catalog: &mut C,
    work: &mut Work<'_>,
    host: &[u8],
    parameters: &[u32],
    fields: &[FieldAsked],
    queries: bool,
    origins: bool,
    types: &mut [BoundType],
    bound: &mut [BoundColumn],
) -> Result<Rounds, CallFault>
    ensures did { let c = C.TypeCatalog.meaning catalog.old in RelatedBy c (held_of book.old) → (t : Tables) → Stands (held_of book.old) t →
        Did c (held_of book.old) (held_of book.new) host.now
        (bind_call parameters.now fields.now queries origins (length types.old) (length bound.old)) (bound_ending result) t }
    ensures layer { IfErr result (λ fault. (t : Tables) → Stands (held_of book.old) t →
        TellsOf (asked_within (held_of book.old).capacity host.now (C.TypeCatalog.meaning catalog.old) t
        (bind_call parameters.now fields.now queries origins (length types.old) (length bound.old))).ending fault) }
    ensures cost { Spent (rounds_told (bound_ending result)) (C.TypeCatalog.meaning catalog.old) (C.TypeCatalog.meaning catalog.new) }
    ensures capacity { (held_of book.new).capacity ≡ (held_of book.old).capacity }
    ensures unkept { keeps_finds (bound_ending result) ≡ false → held_of book.new ≡ held_of book.old }
    ensures lives { (h : List Event) → (d : Catalog) → HasLived h d (held_of book.old) → Grows d (C.TypeCatalog.meaning catalog.old) →
        LawHolds (call_event (C.TypeCatalog.meaning catalog.old) (bind_meant (binding_asked parameters.now fields.now queries origins)) (bound_ending result) ∷ h)
        (C.TypeCatalog.meaning catalog.new) (held_of book.new) }
    ensures sized { (h : List Event) → (d : Catalog) → HasLived h d (held_of book.old) → Grows d (C.TypeCatalog.meaning catalog.old) →
        ColumnsSized (held_of book.new) }
    ensures types { MatchResult result
        (λ _. map (type_told (held_of book.new)) types.new
        ≡ written_over (types_answered (held_of book.new) parameters.now) (map (type_told (held_of book.new)) types.old))
        (λ _. types.new ≡ types.old) }
    ensures types_behind { drop (length parameters.now) types.new ≡ drop (length parameters.now) types.old }
    ensures columns { MatchResult result
        (λ _. ColumnsSized (held_of book.new) → map (column_told (held_of book.new)) bound.new
        ≡ written_over (columns_answered (held_of book.new) fields.now) (map (column_told (held_of book.new)) bound.old))
        (λ _. bound.new ≡ bound.old) }
    ensures columns_behind { drop (length fields.now) bound.new ≡ drop (length fields.now) bound.old }
    ensures names { IfOk result (λ _. map (λ (k : BoundColumn). k.name) bound.new
        ≡ written_over (map (λ (f : FieldAsked). f.name) fields.now) (map (λ (k : BoundColumn). k.name) bound.old)) }
    ensures answers { (h : List Event) → (d : Catalog) → (l : HasLived h d (held_of book.old)) → Grows d (C.TypeCatalog.meaning catalog.old) →
        AnswersByLaw (held_of book.old).capacity host.now (C.TypeCatalog.meaning catalog.old) l.tables
        (bind_lists_asked parameters.now fields.now queries origins (length types.old) (length bound.old))
        (held_of book.new) types.old types.new bound.old bound.new }
{
    let rounds = bind_asked(
        book,
        catalog,
        work,
        host,
        parameters,
        fields,
        queries,
        origins,
        types.len(),
        bound.len(),
    )?;
    write_types(book, parameters, types);
    write_columns(book, fields, bound);
    Ok(rounds)
}
