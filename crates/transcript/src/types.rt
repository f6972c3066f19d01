// What is printed of the settled types of a book, and of the types and columns of a bound statement.
ghost use Rattle.std.specs.Prelude.{◌≡◌, Some, option_and_then};
ghost use Rattle.std.specs.Option.{option_map};
ghost use Rattle.book.specs.Book.{held_of};
ghost use Rattle.book.specs.Settled.{settled_told};
ghost use Rattle.catalog.specs.Meaning.{oid_told};
ghost use Rattle.transcript.specs.Appends.{Appends};
ghost use Rattle.transcript.specs.Types.{bound_column_text, column_text, element_of_text, head_known_text, head_of_type, settled_head_text, head_told, settled_kind_text, made_of, made_text, origin_text, origin_told, parameter_text, typed_text};

use crate::words::{Shown, print};
use book::reading::ColumnText;
use book::settled::{Settled, TypeKind};
use book::tables::Book;
use std::alloc::AllocError;
use std::fmt;
use type_info::oid::{AttributeNumber, Oid};

// What a domain, an array or a range is made of.
#[derive(Clone, Copy)]
struct MadeOf(Option<Oid>);

impl fmt::Display for MadeOf {
    ghost output = { λ made. Some (made_text (oid_told made.0)) };

    fn fmt<W: fmt::Write>(&self, f: &mut fmt::Formatter<W>) -> fmt::Result {
        match self.0 {
            Some(of) => write!(f, " of {}", of.0),
            None => Ok(()),
        }
    }
}

// A kind with what it is made of.
#[derive(Clone, Copy)]
struct Kind(TypeKind, MadeOf);

impl fmt::Display for Kind {
    ghost output = { λ kind. Some (settled_kind_text kind.0 (oid_told kind.1.0)) };

    fn fmt<W: fmt::Write>(&self, f: &mut fmt::Formatter<W>) -> fmt::Result {
        let Kind(kind, made) = *self;
        match kind {
            TypeKind::Simple => write!(f, "simple"),
            TypeKind::Pseudo => write!(f, "pseudo"),
            TypeKind::Domain => write!(f, "domain{made}"),
            TypeKind::Array => write!(f, "array{made}"),
            TypeKind::Range => write!(f, "range{made}"),
            TypeKind::Enum => write!(f, "enum"),
            TypeKind::Composite => write!(f, "composite"),
        }
    }
}

// The head of a settled type: its OID, its name and its kind.
#[derive(Clone, Copy)]
pub(crate) struct HeadText<'b> {
    pub(crate) oid: Oid,
    pub(crate) name: &'b [u8],
    pub(crate) kind: TypeKind,
    // The first of its components.
    pub(crate) of: Option<Oid>,
}

impl fmt::Display for HeadText<'_> {
    ghost output = { λ head. Some (settled_head_text (head_told head)) };

    fn fmt<W: fmt::Write>(&self, f: &mut fmt::Formatter<W>) -> fmt::Result {
        let HeadText {
            oid,
            name,
            kind,
            of,
        } = *self;
        write!(f, "{} {} {}", oid.0, Shown(name), Kind(kind, MadeOf(of)))
    }
}

// The OID of the first component.
fn made_of(book: &Book<'_>, settled: Settled) -> Option<Oid>
    ensures { oid_told result ≡ option_and_then made_of (settled_told (held_of book.now) settled) }
{
    book.oid(book.component(settled, 0)?)
}

// The head of a settled type of this book.
pub(crate) fn head_of<'b>(book: &'b Book<'_>, settled: Settled) -> Option<HeadText<'b>>
    ensures { option_map head_told result ≡ option_map head_of_type (settled_told (held_of book.now) settled) }
{
    Some(HeadText {
        oid: book.oid(settled)?,
        name: book.name(settled)?,
        kind: book.kind(settled)?,
        of: made_of(book, settled),
    })
}

// The head of a settled type: nothing of one whose slot the book does not have.
pub fn head(out: &mut Vec<u8>, book: &Book<'_>, settled: Settled) -> Result<(), AllocError>
    ensures { Appends (head_known_text (settled_told (held_of book.now) settled)) out.old.items out.new.items result }
{
    match head_of(book, settled) {
        None => Ok(()),
        Some(head) => print(out, head),
    }
}

fn head_of_answer<'b>(book: &'b Book<'_>, of: Option<Settled>) -> Option<HeadText<'b>>
    ensures { option_map head_told result ≡ option_map head_of_type (option_and_then (settled_told (held_of book.now)) of) }
{
    head_of(book, of?)
}

// The answer to a question for the element of a settled type.
pub fn element_of(out: &mut Vec<u8>, book: &Book<'_>, of: Option<Settled>) -> Result<(), AllocError>
    ensures { Appends (element_of_text (option_and_then (settled_told (held_of book.now)) of)) out.old.items out.new.items result }
{
    match head_of_answer(book, of) {
        None => print(out, "element-of: nothing\n"),
        Some(head) => print(out, format_args!("element-of: {head}\n")),
    }
}

// A type of a bound statement: the name of a settled one, none of one as it was declared.
#[derive(Clone, Copy, Debug)]
pub struct TypeText<'b> {
    pub oid: Oid,
    pub name: Option<&'b [u8]>,
}

impl fmt::Display for TypeText<'_> {
    ghost output = { λ typed. Some (typed_text typed) };

    fn fmt<W: fmt::Write>(&self, f: &mut fmt::Formatter<W>) -> fmt::Result {
        match self.name {
            Some(name) => write!(f, "settled {} {}", self.oid.0, Shown(name)),
            None => write!(f, "declared {}", self.oid.0),
        }
    }
}

// Where a column of a bound statement comes from: no column, one that the book does not hold, or this one.
#[derive(Clone, Copy, Debug)]
pub enum OriginText<'b> {
    Expression,
    Unknown,
    Table(ColumnText<'b>),
}

impl fmt::Display for OriginText<'_> {
    ghost output = { λ origin. Some (origin_text (origin_told origin)) };

    fn fmt<W: fmt::Write>(&self, f: &mut fmt::Formatter<W>) -> fmt::Result {
        match *self {
            OriginText::Expression => write!(f, "expression"),
            OriginText::Unknown => write!(f, "unknown"),
            OriginText::Table(column) => {
                write!(f, "table {} {}", Shown(column.table), Shown(column.name))
            }
        }
    }
}

// A column of a bound statement.
#[derive(Clone, Copy, Debug)]
pub struct BoundText<'b> {
    pub name: &'b [u8],
    pub typed: TypeText<'b>,
    pub origin: OriginText<'b>,
    pub relation: Option<Oid>,
    pub attribute: Option<AttributeNumber>,
}

impl fmt::Display for BoundText<'_> {
    ghost output = { λ column. Some (bound_column_text column) };

    fn fmt<W: fmt::Write>(&self, f: &mut fmt::Formatter<W>) -> fmt::Result {
        let relation = self.relation.unwrap_or(Oid(0));
        let attribute = self.attribute.unwrap_or(AttributeNumber(0));
        write!(f, "{} {} {}", Shown(self.name), self.typed, self.origin)?;
        write!(f, " relation {} attribute {}", relation.0, attribute.0)
    }
}

// The line of a parameter, by its place.
pub fn parameter(out: &mut Vec<u8>, place: u32, typed: TypeText<'_>) -> Result<(), AllocError>
    ensures { Appends (parameter_text place typed.entry) out.old.items out.new.items result }
{
    print(out, format_args!("  parameter {place} {typed}\n"))
}

// The line of a column, by its place.
pub fn column(out: &mut Vec<u8>, place: u32, column: BoundText<'_>) -> Result<(), AllocError>
    ensures { Appends (column_text place column.entry) out.old.items out.new.items result }
{
    print(out, format_args!("  column {place} {column}\n"))
}
