// What is printed for each line of a script.
ghost use Rattle.std.specs.Prelude.{Some};
ghost use Rattle.std.specs.Option.{option_map};
ghost use Rattle.transcript.specs.Appends.{Appends};
ghost use Rattle.transcript.specs.Printed.{addition_text, allowance_text, builtin_text, catalog_text, closing_text, echo_text, element_text, head_text, in_use_text, kind_text, not_understood_text, reason_text, refusal_text, verb_text};
ghost use Rattle.type_info.specs.Meaning.{entry_of, found, kind_of};

use crate::words::{Shown, print};
use catalog::faults::Told;
use std::alloc::AllocError;
use std::error::Error;
use std::fmt;
use type_info::builtin::{BuiltIn, BuiltInKind};

// Why a line is not understood.
#[derive(Clone, Copy, PartialEq, Eq, Debug)]
pub enum Reason {
    NoSuchLine,
    WordCount,
    NotANumber,
    NotAnAttributeNumber,
    NotAName,
    NotACode,
    NotAnEntry,
    NotACatalog,
    NotYesOrNo,
    NotASize,
    TooMuchText,
}

impl fmt::Display for Reason {
    ghost output = { λ why. Some (reason_text why) };

    fn fmt<W: fmt::Write>(&self, f: &mut fmt::Formatter<W>) -> fmt::Result {
        f.write_str(match self {
            Reason::NoSuchLine => "no such line",
            Reason::WordCount => "too few or too many words",
            Reason::NotANumber => "not a number from 0 to 4294967295",
            Reason::NotAnAttributeNumber => "not a number from -32768 to 32767",
            Reason::NotAName => "not a name",
            Reason::NotACode => "not one byte",
            Reason::NotAnEntry => "not an entry",
            Reason::NotACatalog => "neither rows nor shelf",
            Reason::NotYesOrNo => "neither yes nor no",
            Reason::NotASize => "not the size of a table",
            Reason::TooMuchText => "more text than 32 bits can count",
        })
    }
}

impl Error for Reason {}

// A catalog that steps may ask.
#[derive(Clone, Copy, PartialEq, Eq, Debug)]
pub enum InUse {
    Rows,
    Shelf,
}

impl fmt::Display for InUse {
    ghost output = { λ catalog. Some (catalog_text catalog) };

    fn fmt<W: fmt::Write>(&self, f: &mut fmt::Formatter<W>) -> fmt::Result {
        f.write_str(match self {
            InUse::Rows => "rows",
            InUse::Shelf => "shelf",
        })
    }
}

// What is added to the row table.
#[derive(Clone, Copy, PartialEq, Eq, Debug)]
pub enum Addition {
    Row,
    Name,
    Column,
}

impl fmt::Display for Addition {
    ghost output = { λ what. Some (verb_text what) };

    fn fmt<W: fmt::Write>(&self, f: &mut fmt::Formatter<W>) -> fmt::Result {
        f.write_str(match self {
            Addition::Row => "row",
            Addition::Name => "name",
            Addition::Column => "column",
        })
    }
}

#[derive(Clone, Copy)]
pub(crate) struct Refusal(pub(crate) Told);

impl fmt::Display for Refusal {
    ghost output = { λ refusal. Some (refusal_text refusal.0) };

    fn fmt<W: fmt::Write>(&self, f: &mut fmt::Formatter<W>) -> fmt::Result {
        let Told {
            number,
            place,
            layer,
            rounds,
        } = self.0;
        write!(
            f,
            "refused {number} place {place} layer {layer} rounds {rounds}"
        )
    }
}

#[derive(Clone, Copy)]
struct TypeKind(BuiltInKind);

impl fmt::Display for TypeKind {
    ghost output = { λ kind. Some (kind_text (kind_of kind.0)) };

    fn fmt<W: fmt::Write>(&self, f: &mut fmt::Formatter<W>) -> fmt::Result {
        match self.0 {
            BuiltInKind::Simple => write!(f, "simple"),
            BuiltInKind::Pseudo => write!(f, "pseudo"),
            BuiltInKind::Array(element) => write!(f, "array of {}", element.0),
            BuiltInKind::Range(subtype) => write!(f, "range of {}", subtype.0),
        }
    }
}

#[derive(Clone, Copy)]
struct TypeHead(BuiltIn);

impl fmt::Display for TypeHead {
    ghost output = { λ head. Some (head_text (entry_of head.0)) };

    fn fmt<W: fmt::Write>(&self, f: &mut fmt::Formatter<W>) -> fmt::Result {
        let TypeHead(entry) = *self;
        write!(
            f,
            "{} {} {}",
            entry.oid().0,
            Shown(entry.name()),
            TypeKind(entry.kind())
        )
    }
}

// The head of a type: its OID, its name and its kind.
pub fn head(out: &mut Vec<u8>, entry: BuiltIn) -> Result<(), AllocError>
    ensures { Appends (head_text (entry_of entry)) out.old.items out.new.items result }
{
    print(out, TypeHead(entry))
}

// The answer to a question for a built-in type.
pub fn builtin(out: &mut Vec<u8>, entry: Option<BuiltIn>) -> Result<(), AllocError>
    ensures { Appends (builtin_text (found entry)) out.old.items out.new.items result }
{
    match entry {
        None => print(out, "builtin: nothing\n"),
        Some(entry) => print(out, format_args!("builtin: {}\n", TypeHead(entry))),
    }
}

// The answer to a question for the element of a declared type.
pub fn element(out: &mut Vec<u8>, of: Option<&[u8]>) -> Result<(), AllocError>
    ensures { Appends (element_text (option_map (λ x. x.now) of.entry)) out.old.items out.new.items result }
{
    match of {
        None => print(out, "element: nothing\n"),
        Some(name) => print(out, format_args!("element: name {}\n", Shown(name))),
    }
}

// The answer to the choice of a catalog.
pub fn in_use(out: &mut Vec<u8>, catalog: InUse) -> Result<(), AllocError>
    ensures { Appends (in_use_text catalog) out.old.items out.new.items result }
{
    print(out, format_args!("use: {catalog}\n"))
}

// The answer to the setting of an allowance.
pub fn allowance(out: &mut Vec<u8>, rounds: u32) -> Result<(), AllocError>
    ensures { Appends (allowance_text rounds) out.old.items out.new.items result }
{
    print(out, format_args!("allowance: {rounds}\n"))
}

// The answer to an addition to the row table.
pub fn added(out: &mut Vec<u8>, what: Addition, outcome: Result<(), Told>) -> Result<(), AllocError>
    ensures { Appends (addition_text what outcome) out.old.items out.new.items result }
{
    match outcome {
        Ok(()) => print(out, format_args!("{what}: ok\n")),
        Err(told) => print(out, format_args!("{what}: {}\n", Refusal(told))),
    }
}

// A line as it stands in the script.
pub fn echo(out: &mut Vec<u8>, line: &[u8]) -> Result<(), AllocError>
    ensures { Appends (echo_text line.now) out.old.items out.new.items result }
{
    out.extend_from_slice(b"> ")?;
    out.extend_from_slice(line)?;
    out.extend_from_slice(b"\n")
}

// The answer to a line that is not understood, by its number in the script.
pub fn not_understood(out: &mut Vec<u8>, line: u64, why: Reason) -> Result<(), AllocError>
    ensures { Appends (not_understood_text line why) out.old.items out.new.items result }
{
    print(out, format_args!("line {line}: not understood: {why}\n"))
}

// The last line: how many lines were echoed, how many calls refused, how many lines not understood.
pub fn closing(out: &mut Vec<u8>, lines: u64, refused: u64, misread: u64) -> Result<(), AllocError>
    ensures { Appends (closing_text lines refused misread) out.old.items out.new.items result }
{
    print(
        out,
        format_args!("{lines} lines, {refused} refused, {misread} not understood\n"),
    )
}
