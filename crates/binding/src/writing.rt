// What a bind answers, and how it is written over the host's buffers.
ghost use Rattle.std.specs.Prelude.{◌≡◌, ◌<◌, ◌≤◌, Some, drop, length, map};
ghost use Rattle.binding.specs.Writing.{ColumnsSized, column_told, columns_answered, origin_told, type_told, types_answered};
ghost use Rattle.binding.specs.declared.writing.BoundColumn.{BoundColumn};
ghost use Rattle.book.specs.Book.{held_of};
ghost use Rattle.book.specs.Held.{book_held};
ghost use Rattle.book.specs.Settled.{column_text_told};
ghost use Rattle.catalog.specs.Catalog.{Sized};
ghost use Rattle.life.specs.Buffers.{written_over};
ghost use Rattle.life.specs.HostCalls.{meant_field};
ghost use Rattle.life.specs.Written.{bound_column, origin_found, origin_of, written};
ghost use Rattle.requests.specs.Asked.{field_asked};
ghost use Rattle.requests.specs.declared.asked.FieldAsked.{FieldAsked};

use book::reading::ColumnText;
use book::settled::Settled;
use book::tables::Book;
use catalog::values::{Column, LongName, ShortName};
use keys::span::Span;
use requests::asked::FieldAsked;
use type_info::oid::{AttributeNumber, Oid, Ordinal};

// A type that a bind answers: only a settled one has a kind.
#[derive(Clone, Copy, Debug)]
pub enum BoundType {
    Settled(Oid, Settled),
    Declared(Oid),
}

// Where a column comes from: no column, one that the book does not hold, or this one.
#[derive(Clone, Copy)]
pub enum Origin {
    Expression,
    Unknown,
    Table(Column),
}

// A column of the result. Its name lies in the host's text.
#[derive(Clone, Copy)]
pub struct BoundColumn {
    pub name: Span,
    pub ordinal: Ordinal,
    pub typed: BoundType,
    pub relation: Option<Oid>,
    pub attribute: Option<AttributeNumber>,
    pub origin: Origin,
}

fn answer_type(book: &Book<'_>, oid: Oid) -> BoundType
    ensures { type_told (held_of book.now) result ≡ Some (written (book_held (held_of book.now)) oid.0) }
{
    match book.describe(oid) {
        Some(settled) => BoundType::Settled(oid, settled),
        None => BoundType::Declared(oid),
    }
}

// The column in place: unknown where a name is beyond its limit.
fn named_origin(column: ColumnText<'_>) -> Origin
    ensures { let k = column_text_told column.entry in Sized 128 k.table → Sized 63 k.column →
        origin_told result ≡ origin_found (Some k) }
{
    let Some(table) = LongName::new(column.table) else {
        return Origin::Unknown;
    };
    let Some(name) = ShortName::new(column.name) else {
        return Origin::Unknown;
    };
    Origin::Table(Column { table, name })
}

fn origin_from(book: &Book<'_>, field: &FieldAsked) -> Origin
    ensures { ColumnsSized (held_of book.now) →
        origin_told result ≡ origin_of (book_held (held_of book.now)) (meant_field (field_asked field.now)) }
{
    let Some(relation) = field.relation else {
        return Origin::Expression;
    };
    let Some(attribute) = field.attribute else {
        return Origin::Expression;
    };
    match book.column(relation, attribute) {
        Some(column) => named_origin(column),
        None => Origin::Unknown,
    }
}

fn ordinal(place: usize) -> Ordinal
    ensures { place < 256 → result.0 ≡ place }
{
    Ordinal(u8::try_from(place).unwrap_or(u8::MAX))
}

// What is answered of the field at this place.
fn answer_column(book: &Book<'_>, place: usize, field: &FieldAsked) -> BoundColumn
    ensures told { ColumnsSized (held_of book.now) → place < 256 →
        column_told (held_of book.now) result ≡ Some (bound_column (book_held (held_of book.now)) place (meant_field (field_asked field.now))) }
    ensures name { result.name ≡ field.now.name }
{
    BoundColumn {
        name: field.name,
        ordinal: ordinal(place),
        typed: answer_type(book, field.oid),
        relation: field.relation,
        attribute: field.attribute,
        origin: origin_from(book, field),
    }
}

// Writes the types of the OIDs over the buffer, from its start on: nothing where it is too short.
pub fn write_types(book: &Book<'_>, oids: &[u32], out: &mut [BoundType])
    ensures written { length oids.now ≤ length out.old →
        map (type_told (held_of book.now)) out.new ≡ written_over (types_answered (held_of book.now) oids.now) (map (type_told (held_of book.now)) out.old) }
    ensures behind { drop (length oids.now) out.new ≡ drop (length oids.now) out.old }
    ensures short { length out.old < length oids.now → out.new ≡ out.old }
{
    if oids.len() > out.len() {
        return;
    }
    for (place, oid) in oids.iter().enumerate() {
        out[place] = answer_type(book, Oid(*oid));
    }
}

// Writes what is answered of the fields over the buffer, from its start on: nothing where it is too short.
pub fn write_columns(book: &Book<'_>, fields: &[FieldAsked], out: &mut [BoundColumn])
    ensures written { length fields.now ≤ 256 → ColumnsSized (held_of book.now) → length fields.now ≤ length out.old →
        map (column_told (held_of book.now)) out.new ≡ written_over (columns_answered (held_of book.now) fields.now) (map (column_told (held_of book.now)) out.old) }
    ensures names { length fields.now ≤ length out.old →
        map (λ (k : BoundColumn). k.name) out.new ≡ written_over (map (λ (f : FieldAsked). f.name) fields.now) (map (λ (k : BoundColumn). k.name) out.old) }
    ensures behind { drop (length fields.now) out.new ≡ drop (length fields.now) out.old }
    ensures short { length out.old < length fields.now → out.new ≡ out.old }
{
    if fields.len() > out.len() {
        return;
    }
    for (place, field) in fields.iter().enumerate() {
        out[place] = answer_column(book, place, field);
    }
}
