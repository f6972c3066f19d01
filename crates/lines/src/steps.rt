// What the lines of the steps ask of a book, with names over the line's host text.
ghost use Rattle.std.specs.Prelude.{◌≡◌, IfOk, length, take};
ghost use Rattle.script.specs.Words.{words};
ghost use Rattle.lines.specs.Reading.{Reads, seen};
ghost use Rattle.lines.specs.Steps.{bind_line, bind_read, entries_placed, field_placed, fields_placed, fill_line, flag_read, numbers_first, ordinal_line, resolve_line, resolve_read, setting_read, words_behind};

use crate::entry::place_entry;
use crate::host::place_name;
use crate::trouble::Trouble;
use crate::word::{first_word, only_word, read_attribute_link, read_link, read_number, read_oid};
use keys::span::Span;
use requests::asked::{FieldAsked, TypeAsked};
use script::numbers::unsigned;
use script::words::next_word;
use std::alloc::{AllocError, Global};
use transcript::answers::Reason;

#[derive(Drop)]
pub struct FillLine {
    pub oids: Vec<u32>,
}

#[derive(Drop)]
pub struct ResolveLine {
    pub host: Vec<u8>,
    pub entries: Vec<TypeAsked>,
    pub slots: Option<u32>,
}

#[derive(Drop)]
pub struct BindLine {
    pub host: Vec<u8>,
    pub parameters: Vec<u32>,
    pub fields: Vec<FieldAsked>,
    pub queries: bool,
    pub origins: bool,
    pub parameter_slots: Option<u32>,
    pub column_slots: Option<u32>,
}

impl FillLine {
    // `fill OID..`
    pub fn read(rest: &[u8], alloc: Global) -> Result<FillLine, Trouble>
        ensures { Reads (λ line. line.oids.items) (fill_line (words rest.now)) result }
    {
        let (oids, rest) = read_numbers(rest, alloc)?;
        match next_word(rest) {
            None => Ok(FillLine { oids }),
            Some(_) => Err(Trouble::NotUnderstood(Reason::NotANumber)),
        }
    }
}

impl ResolveLine {
    // `resolve [out=N] ENTRY..`
    pub fn read(rest: &[u8], alloc: Global) -> Result<ResolveLine, Trouble>
        ensures { Reads resolve_read (resolve_line (words rest.now)) result }
    {
        let (slots, rest) = read_setting(rest, b"out=")?;
        let mut host = Vec::new(alloc);
        let entries = place_entries(rest, &mut host)?;
        Ok(ResolveLine {
            host,
            entries,
            slots,
        })
    }
}

impl BindLine {
    // `bind queries=yes|no origins=yes|no [parameters=N] [columns=N] parameters OID.. fields (NAME TYPE RELATION ATTRIBUTE)..`
    pub fn read(rest: &[u8], alloc: Global) -> Result<BindLine, Trouble>
        ensures { Reads bind_read (bind_line (words rest.now)) result }
    {
        let (queries, rest) = first_word(rest)?;
        let (origins, rest) = first_word(rest)?;
        let queries = read_flag(queries, b"queries=yes", b"queries=no")?;
        let origins = read_flag(origins, b"origins=yes", b"origins=no")?;
        let (parameter_slots, rest) = read_setting(rest, b"parameters=")?;
        let (column_slots, rest) = read_setting(rest, b"columns=")?;
        let rest = behind_word(rest, b"parameters", Reason::WordCount)?;
        let (parameters, rest) = read_numbers(rest, alloc)?;
        let rest = behind_word(rest, b"fields", Reason::NotANumber)?;
        let mut host = Vec::new(alloc);
        let fields = place_fields(rest, &mut host)?;
        Ok(BindLine {
            host,
            parameters,
            fields,
            queries,
            origins,
            parameter_slots,
            column_slots,
        })
    }
}

// `ordinal NAME`: where the name lies, which is laid behind the host text. Whatever comes of it, the text that was there
// stays at the front.
pub fn read_ordinal(rest: &[u8], host: &mut Vec<u8>) -> Result<Span, Trouble>
    ensures placed { Reads (λ span. (host.new.items, span)) (ordinal_line host.old.items (words rest.now)) result }
    ensures kept { take (length host.old.items) host.new.items ≡ host.old.items }
{
    place_name(only_word(rest)?, host)
}

// The numbers that come first, and what follows them.
fn read_numbers<'a>(line: &'a [u8], alloc: Global) -> Result<(Vec<u32>, &'a [u8]), AllocError>
    ensures { IfOk result (λ found. numbers_first (words line.now) ≡ (found.0.items, words found.1.now)) }
{
    let mut rest = line;
    let mut numbers = Vec::new(alloc);
    while let Some((word, further)) = next_word(rest)
        && let Some(number) = unsigned(word)
    {
        numbers.push(number)?;
        rest = further;
    }
    Ok((numbers, rest))
}

// A number behind a key, which may be left out, and what follows it.
#[tactic(auto, using(crate::proofs::Prefix::behind_prefix_is))]
fn read_setting<'a>(rest: &'a [u8], key: &[u8]) -> Result<(Option<u32>, &'a [u8]), Reason>
    ensures { seen (λ found. (found.0, words found.1.now)) result ≡ setting_read key.now (words rest.now) }
{
    let Some((word, further)) = next_word(rest) else {
        return Ok((None, rest));
    };
    match word.strip_prefix(key) {
        Some(digits) => Ok((Some(read_number(digits)?), further)),
        None => Ok((None, rest)),
    }
}

// What follows a word that has to come, or why another word stands in its place.
fn behind_word<'a>(rest: &'a [u8], due: &[u8], other: Reason) -> Result<&'a [u8], Reason>
    ensures { seen (λ further. words further.now) result ≡ words_behind due.now other (words rest.now) }
{
    let (word, further) = first_word(rest)?;
    if word == due { Ok(further) } else { Err(other) }
}

// Whether a word says yes or no.
fn read_flag(word: &[u8], yes: &[u8], no: &[u8]) -> Result<bool, Reason>
    ensures { result ≡ flag_read yes.now no.now word.now }
{
    if word == yes {
        Ok(true)
    } else if word == no {
        Ok(false)
    } else {
        Err(Reason::NotYesOrNo)
    }
}

fn place_entries(line: &[u8], host: &mut Vec<u8>) -> Result<Vec<TypeAsked>, Trouble>
    ensures { Reads (λ entries. (host.new.items, entries.items)) (entries_placed host.old.items (words line.now)) result }
{
    let mut rest = line;
    let mut entries = Vec::new(*host.allocator());
    while let Some((word, further)) = next_word(rest) {
        entries.push(place_entry(word, host)?)?;
        rest = further;
    }
    Ok(entries)
}

// `NAME TYPE RELATION ATTRIBUTE`
fn place_field(
    name: &[u8],
    oid: &[u8],
    relation: &[u8],
    attribute: &[u8],
    host: &mut Vec<u8>,
) -> Result<FieldAsked, Trouble>
    ensures { Reads (λ field. (host.new.items, field)) (field_placed host.old.items name.now oid.now relation.now attribute.now) result }
{
    Ok(FieldAsked {
        name: place_name(name, host)?,
        oid: read_oid(oid)?,
        relation: read_link(relation)?,
        attribute: read_attribute_link(attribute)?,
    })
}

fn place_fields(line: &[u8], host: &mut Vec<u8>) -> Result<Vec<FieldAsked>, Trouble>
    ensures { Reads (λ fields. (host.new.items, fields.items)) (fields_placed host.old.items (words line.now)) result }
{
    let mut rest = line;
    let mut fields = Vec::new(*host.allocator());
    while let Some((name, further)) = next_word(rest) {
        let (oid, further) = first_word(further)?;
        let (relation, further) = first_word(further)?;
        let (attribute, further) = first_word(further)?;
        fields.push(place_field(name, oid, relation, attribute, host)?)?;
        rest = further;
    }
    Ok(fields)
}
