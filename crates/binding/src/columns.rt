// The column round of a bind: the columns that its fields come from and the book does not hold are asked for, each once, and what is
// found goes into the book.
ghost use Rattle.std.specs.Prelude.{◌≡◌, ℕ, ◌+◌, ◌-◌, ◌<◌, ◌≤◌, List, [], IfErr, IfOk, MatchBool, MatchOption, MatchResult, None, if◌then◌else◌, length, option_map, option_to_list, is_some, true};
ghost use Rattle.binding.specs.Asked.{Gathered, asked_of, source_of, unheld};
ghost use Rattle.binding.specs.Memory.{Whole};
ghost use Rattle.binding.specs.ColumnRound.{FullAt, columns_full, ending_told, round_ending};
ghost use Rattle.book.specs.Book.{held_of};
ghost use Rattle.book.specs.Sizes.{position_of};
ghost use Rattle.book.specs.Stands.{Stands};
ghost use Rattle.catalog.specs.Catalog.{Catalog, Laws, Opened, Shut, Spent};
ghost use Rattle.catalog.specs.declared.faults.CatalogFault.TheVariants.{NoAllowance as NoneLeft};
ghost use Rattle.faults.specs.Faults.{columns_refusal_of};
ghost use Rattle.finds.specs.Columns.{RelatedBy};
ghost use Rattle.keys.specs.Senses.{Pair, pair_of, same_pair};
ghost use Rattle.life.specs.Lists.{push_all};
ghost use Rattle.life.specs.Steps.{keeps_finds, rounds_told};
ghost use Rattle.room.specs.Added.{with_columns};
ghost use Rattle.room.specs.Tables.{Tables};
ghost use Rattle.unfolding.specs.Lists.{Distinct};

use crate::memory::{COLUMN_SLOTS, ColumnFinds, ColumnMemory, MOST_COLUMNS};
use book::sizes::BookTable;
use book::tables::Book;
use catalog::faults::CatalogFault;
use catalog::questions::ColumnCatalog;
use faults::columns::ColumnsFault;
use finds::columns::{columns_added, keep_columns};
use indexes::whole::{AttributeIndex, OidIndex};
use keys::kinds::Attribute;
use requests::asked::FieldAsked;
use slots::stack::Stack;

impl<'a> ColumnFinds<'a> {
    // Nothing asked for; none where the memory is not of the tables' size.
    pub fn new(memory: ColumnMemory<'a>) -> Option<ColumnFinds<'a>>
        ensures { MatchOption result (Whole memory.entry → ⊥) (λ f. Whole memory.entry × ((c : Catalog) → Gathered c [] f)) }
    {
        let ColumnMemory { asked, found, seen } = memory;
        if asked.len() != COLUMN_SLOTS
            || found.len() != MOST_COLUMNS
            || seen.len() != COLUMN_SLOTS
        {
            return None;
        }
        Some(ColumnFinds {
            asked: AttributeIndex::new(asked),
            found: Stack::new(found),
            seen,
        })
    }

    // Nothing asked for, whatever was.
    fn clear(&mut self)
        ensures { (c : Catalog) → Gathered c [] self.new }
    {
        self.asked.clear();
        self.found.clear();
    }

    // Asks for the column that the field comes from, unless the book holds it or it was asked for.
    fn ask<C: ColumnCatalog>(
        &mut self,
        book: &Book<'_>,
        catalog: &C,
        opened: &C::Round,
        field: &FieldAsked,
    )
        ensures { let c = C.TypeCatalog.meaning catalog.now in (asked : List Pair) → Gathered c asked self.old → length asked < 256 →
            Gathered c (push_all same_pair (λ p. is_some ((held_of book.now).columns p)) asked (option_to_list (source_of field.now))) self.new }
    {
        let Some(at) = missing(book, field) else {
            return;
        };
        if self.asked.find(at).is_some() {
            return;
        }
        self.asked.intern(at, 0);
        if let Some(column) = catalog.column(opened, at.relation, at.number) {
            self.found.push((at, column));
        }
    }

    fn ask_all<C: ColumnCatalog>(
        &mut self,
        book: &Book<'_>,
        catalog: &C,
        opened: &C::Round,
        fields: &[FieldAsked],
    )
        ensures { let c = C.TypeCatalog.meaning catalog.now in length fields.now ≤ 256 → Gathered c [] self.old →
            Gathered c (asked_of (held_of book.now) fields.now) self.new }
    {
        for field in fields {
            self.ask(book, catalog, opened, field);
        }
    }

    // The round behind so many rounds of types: it is opened, the columns are asked for, and it is closed.
    fn round<C: ColumnCatalog>(
        &mut self,
        book: &Book<'_>,
        catalog: &mut C,
        fields: &[FieldAsked],
        rounds: u8,
    ) -> Result<(), CatalogFault>
        ensures { let c = C.TypeCatalog.meaning catalog.old in MatchResult result
            (λ _. Opened c (C.TypeCatalog.meaning catalog.new) × (length fields.now ≤ 256 → Gathered c (asked_of (held_of book.now) fields.now) self.new))
            (λ fault. Shut c (C.TypeCatalog.meaning catalog.new) × (rounds < 255 → fault ≡ NoneLeft (rounds + 1))) }
    {
        let opened = enter(catalog, rounds)?;
        self.clear();
        self.ask_all(book, catalog, &opened, fields);
        catalog.close(opened);
        Ok(())
    }

    // The first table of the book without room for what was found, which there are slots enough to count.
    fn full(&mut self, book: &Book<'_>) -> Option<BookTable>
        ensures full { (c : Catalog) → (asked : List Pair) → Gathered c asked self.old → Distinct asked → (t : Tables) → Stands (held_of book.now) t →
            option_map position_of result ≡ columns_full c (held_of book.now) t asked }
        ensures found { self.new.found ≡ self.old.found }
    {
        let mut seen = OidIndex::new(self.seen);
        let sizes = columns_added(book, self.found.as_slice(), &mut seen)?;
        book.room(sizes)
    }

    // Puts what was found into the book, unless a table has no room for it.
    fn keep(&mut self, book: &mut Book<'_>, rounds: u8) -> Result<(), ColumnsFault>
        ensures told { (c : Catalog) → (asked : List Pair) → Gathered c asked self.old → Distinct asked → (t : Tables) → Stands (held_of book.old) t →
            let full = columns_full c (held_of book.old) t asked in MatchResult result (λ _. full ≡ None) (λ fault. FullAt full rounds fault) }
        ensures kept { (c : Catalog) → Laws c → RelatedBy c (held_of book.old) → (asked : List Pair) → Gathered c asked self.old → Distinct asked →
            (t : Tables) → Stands (held_of book.old) t → IfOk result (λ _. Stands (held_of book.new) (with_columns c t asked)) }
        ensures capacity { (held_of book.new).capacity ≡ (held_of book.old).capacity }
        ensures unkept { IfErr result (λ fault. (held_of book.new ≡ held_of book.old) × ((columns_refusal_of fault).rounds ≡ rounds)) }
    {
        if let Some(table) = self.full(book) {
            return Err(ColumnsFault::Full { table, rounds });
        }
        keep_columns(book, self.found.as_slice());
        Ok(())
    }
}

// The attribute that the field comes from, if it has a relation and an attribute.
pub(crate) fn source(field: &FieldAsked) -> Option<Attribute>
    ensures { option_map pair_of result ≡ source_of field.now }
{
    let relation = field.relation?;
    let number = field.attribute?;
    Some(Attribute { relation, number })
}

// The same, if the book does not hold that column.
fn missing(book: &Book<'_>, field: &FieldAsked) -> Option<Attribute>
    ensures { option_map pair_of result ≡ unheld (held_of book.now) (source_of field.now) }
{
    let at = source(field)?;
    if book.column(at.relation, at.number).is_some() {
        return None;
    }
    Some(at)
}

// Whether some field comes from a column that the book does not hold.
fn any_asked(book: &Book<'_>, fields: &[FieldAsked]) -> bool
    ensures { let asked = asked_of (held_of book.now) fields.now in MatchBool result (asked ≡ [] → ⊥) (asked ≡ []) }
{
    for field in fields {
        if missing(book, field).is_some() {
            return true;
        }
    }
    false
}

// Opens the round behind so many rounds of types.
fn enter<C: ColumnCatalog>(catalog: &mut C, rounds: u8) -> Result<C::Round, CatalogFault>
    ensures { let c = C.TypeCatalog.meaning catalog.old in MatchResult result
        (λ _. Opened c (C.TypeCatalog.meaning catalog.new))
        (λ fault. Shut c (C.TypeCatalog.meaning catalog.new) × (rounds < 255 → fault ≡ NoneLeft (rounds + 1))) }
{
    match catalog.open() {
        Ok(round) => Ok(round),
        Err(_) => Err(CatalogFault::NoAllowance {
            round: rounds.saturating_add(1),
        }),
    }
}

// The column round behind so many rounds of types, if any column is to be asked for. How many rounds were opened.
pub fn column_round<C: ColumnCatalog>(
    book: &mut Book<'_>,
    catalog: &mut C,
    memory: &mut ColumnFinds<'_>,
    fields: &[FieldAsked],
    rounds: u8,
) -> Result<u8, ColumnsFault>
    ensures told { length fields.now ≤ 256 → rounds < 255 → (t : Tables) → Stands (held_of book.old) t →
        ending_told rounds result ≡ round_ending (C.TypeCatalog.meaning catalog.old) (held_of book.old) t fields.now rounds }
    ensures kept { length fields.now ≤ 256 → let c = C.TypeCatalog.meaning catalog.old in RelatedBy c (held_of book.old) →
        (t : Tables) → Stands (held_of book.old) t →
        IfOk result (λ _. Stands (held_of book.new) (with_columns c t (asked_of (held_of book.old) fields.now))) }
    ensures cost { rounds < 255 → Spent (rounds_told (ending_told rounds result) - rounds) (C.TypeCatalog.meaning catalog.old) (C.TypeCatalog.meaning catalog.new) }
    ensures capacity { (held_of book.new).capacity ≡ (held_of book.old).capacity }
    ensures unkept { IfErr result (λ _. held_of book.new ≡ held_of book.old) }
    ensures since { rounds < 255 → rounds ≤ rounds_told (ending_told rounds result) }
    ensures types_kept { rounds < 255 → keeps_finds (ending_told rounds result) ≡ true }
{
    if !any_asked(book, fields) {
        return Ok(0);
    }
    memory.round(book, catalog, fields, rounds)?;
    memory.keep(book, rounds.saturating_add(1))?;
    Ok(1)
}
