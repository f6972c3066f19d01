// What is printed of a book's sizes and of the steps that it takes.
ghost use Rattle.std.specs.Prelude.{Some};
ghost use Rattle.std.specs.Fmt.{WritesOnOk};
ghost use Rattle.std.specs.Option.{option_map};
ghost use Rattle.transcript.specs.Appends.{Appends};
ghost use Rattle.transcript.specs.Steps.{book_text, bound_text, filled_text, oids_text, ordinal_text, resolved_text, sizes_text, step_refused_text, step_text};

use crate::answers::Refusal;
use crate::words::print;
use book::sizes::Sizes;
use catalog::faults::Told;
use std::alloc::AllocError;
use std::fmt;
use type_info::oid::Ordinal;

// What asks a catalog.
#[derive(Clone, Copy, PartialEq, Eq, Debug)]
pub enum Step {
    Fill,
    Resolve,
    Bind,
}

impl fmt::Display for Step {
    ghost output = { λ step. Some (step_text step) };

    fn fmt<W: fmt::Write>(&self, f: &mut fmt::Formatter<W>) -> fmt::Result {
        f.write_str(match self {
            Step::Fill => "fill",
            Step::Resolve => "resolve",
            Step::Bind => "bind",
        })
    }
}

#[derive(Clone, Copy)]
struct Slots(Sizes);

impl fmt::Display for Slots {
    ghost output = { λ slots. Some (sizes_text slots.0) };

    fn fmt<W: fmt::Write>(&self, f: &mut fmt::Formatter<W>) -> fmt::Result {
        let Sizes {
            descriptors,
            parts,
            names,
            arrays,
            text,
            columns,
            relations,
        } = self.0;
        write!(
            f,
            "descriptors {descriptors} parts {parts} names {names} arrays {arrays}"
        )?;
        write!(f, " text {text} columns {columns} relations {relations}")
    }
}

// Numbers with a space before each.
#[derive(Clone, Copy)]
struct Oids<'a>(&'a [u32]);

impl fmt::Display for Oids<'_> {
    ghost output = { λ oids. Some (oids_text oids.0.now) };

    fn fmt<W: fmt::Write>(&self, f: &mut fmt::Formatter<W>) -> fmt::Result {
        write_oids(self.0, f)
    }
}

fn write_oids<W: fmt::Write>(oids: &[u32], f: &mut fmt::Formatter<W>) -> fmt::Result
    ensures { WritesOnOk W.write_str_gives f.old result (oids_text oids.now) f.new }
{
    for oid in oids {
        write!(f, " {oid}")?;
    }
    Ok(())
}

// The answer to a new book, by the slots in force.
pub fn book(out: &mut Vec<u8>, slots: Sizes) -> Result<(), AllocError>
    ensures { Appends (book_text slots) out.old.items out.new.items result }
{
    print(out, format_args!("book: {}\n", Slots(slots)))
}

// The answer to a step that was refused.
pub fn refused(out: &mut Vec<u8>, what: Step, told: Told, allowance: u32) -> Result<(), AllocError>
    ensures { Appends (step_refused_text what told allowance) out.old.items out.new.items result }
{
    print(
        out,
        format_args!("{what}: {} allowance {allowance}\n", Refusal(told)),
    )
}

// The answer to a fill.
pub fn filled(out: &mut Vec<u8>, rounds: u8, allowance: u32) -> Result<(), AllocError>
    ensures { Appends (filled_text rounds allowance) out.old.items out.new.items result }
{
    print(
        out,
        format_args!("fill: ok rounds {rounds} allowance {allowance}\n"),
    )
}

// The answer to a resolution, with the OIDs that it wrote.
pub fn resolved(
    out: &mut Vec<u8>,
    rounds: u8,
    allowance: u32,
    oids: &[u32],
) -> Result<(), AllocError>
    ensures { Appends (resolved_text rounds allowance oids.now) out.old.items out.new.items result }
{
    print(
        out,
        format_args!(
            "resolve: ok rounds {rounds} allowance {allowance} oids{}\n",
            Oids(oids)
        ),
    )
}

// The first line of the answer to a binding: its type rounds, its column rounds.
pub fn bound(out: &mut Vec<u8>, types: u8, columns: u8, allowance: u32) -> Result<(), AllocError>
    ensures { Appends (bound_text types columns allowance) out.old.items out.new.items result }
{
    print(
        out,
        format_args!("bind: ok rounds {types} {columns} allowance {allowance}\n"),
    )
}

// The answer to a question for the place of a column.
pub fn ordinal(out: &mut Vec<u8>, of: Option<Ordinal>) -> Result<(), AllocError>
    ensures { Appends (ordinal_text (option_map (λ o. o.0) of)) out.old.items out.new.items result }
{
    match of {
        None => print(out, "ordinal: nothing\n"),
        Some(place) => print(out, format_args!("ordinal: {}\n", place.0)),
    }
}
