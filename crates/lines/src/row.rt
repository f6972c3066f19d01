// A row that a line adds to the row table, over the line's host text.
ghost use Rattle.std.specs.Prelude.{◌≡◌, codes};
ghost use Rattle.std.specs.Str.{bytes_eq};
ghost use Rattle.offers.specs.Offered.{offer_of};
ghost use Rattle.script.specs.Words.{words};
ghost use Rattle.lines.specs.Reading.{Reads};
ghost use Rattle.lines.specs.Rows.{attributes_placed, attributes_read, labels_placed, labels_read, row_line, row_of, row_offered};

use crate::host::place_name;
use crate::trouble::Trouble;
use crate::word::{first_word, read_code, read_link, read_oid};
use keys::span::Span;
use offers::offer::{OfferedAttribute, OfferedRow};
use script::words::next_word;
use std::alloc::Global;
use transcript::answers::Reason;

#[derive(Drop)]
pub struct RowLine {
    pub host: Vec<u8>,
    // the row without its labels and attributes
    row: OfferedRow<'static>,
    labels: Vec<Span>,
    attributes: Vec<OfferedAttribute>,
}

impl RowLine {
    // `row OID PRETTY TYPTYPE TYPCATEGORY TYPELEM TYPBASETYPE RNGSUBTYPE TYPARRAY [labels NAME..] [attributes (NAME OID)..]`
    pub fn read(rest: &[u8], alloc: Global) -> Result<RowLine, Trouble>
        ensures { Reads row_offered (row_line (words rest.now)) result }
    {
        let (oid, rest) = first_word(rest)?;
        let (pretty, rest) = first_word(rest)?;
        let (typtype, rest) = first_word(rest)?;
        let (typcategory, rest) = first_word(rest)?;
        let (typelem, rest) = first_word(rest)?;
        let (typbasetype, rest) = first_word(rest)?;
        let (rngsubtype, rest) = first_word(rest)?;
        let (typarray, rest) = first_word(rest)?;
        let mut host = Vec::new(alloc);
        let row = OfferedRow {
            oid: read_oid(oid)?,
            pretty: place_name(pretty, &mut host)?,
            typtype: read_code(typtype, alloc)?,
            typcategory: read_code(typcategory, alloc)?,
            typelem: read_link(typelem)?,
            typbasetype: read_link(typbasetype)?,
            rngsubtype: read_link(rngsubtype)?,
            typarray: read_link(typarray)?,
            labels: &[],
            attributes: &[],
        };
        let (labels, rest) = read_labels(rest, &mut host)?;
        let attributes = read_attributes(rest, &mut host)?;
        Ok(RowLine {
            host,
            row,
            labels,
            attributes,
        })
    }

    // The row, as it is offered over the host text.
    pub fn offered(&self) -> OfferedRow<'_>
        ensures { offer_of result ≡ row_of self.now }
    {
        OfferedRow {
            labels: self.labels.as_slice(),
            attributes: self.attributes.as_slice(),
            ..self.row
        }
    }
}

// Whether a word ends the labels and begins the attributes.
fn is_attributes(word: &[u8]) -> bool
    ensures { result ≡ bytes_eq word.now (codes "attributes") }
{
    word == b"attributes".as_slice()
}

// Labels as far as the word `attributes`, and what follows them.
fn place_labels<'a>(names: &'a [u8], host: &mut Vec<u8>) -> Result<(Vec<Span>, &'a [u8]), Trouble>
    ensures { Reads (λ found. (host.new.items, found.0.items, words found.1.now)) (labels_placed host.old.items (words names.now)) result }
{
    let mut rest = names;
    let mut labels = Vec::new(*host.allocator());
    while let Some((word, further)) = next_word(rest)
        && !is_attributes(word)
    {
        labels.push(place_name(word, host)?)?;
        rest = further;
    }
    Ok((labels, rest))
}

// `labels NAME..`, which may be left out, and what follows it
fn read_labels<'a>(rest: &'a [u8], host: &mut Vec<u8>) -> Result<(Vec<Span>, &'a [u8]), Trouble>
    ensures { Reads (λ found. (host.new.items, found.0.items, words found.1.now)) (labels_read host.old.items (words rest.now)) result }
{
    match next_word(rest) {
        Some((b"labels", names)) => place_labels(names, host),
        _ => Ok((Vec::new(*host.allocator()), rest)),
    }
}

fn place_attributes(pairs: &[u8], host: &mut Vec<u8>) -> Result<Vec<OfferedAttribute>, Trouble>
    ensures { Reads (λ attributes. (host.new.items, attributes.items)) (attributes_placed host.old.items (words pairs.now)) result }
{
    let mut rest = pairs;
    let mut attributes = Vec::new(*host.allocator());
    while let Some((name, further)) = next_word(rest) {
        let (oid, further) = first_word(further)?;
        let name = place_name(name, host)?;
        let oid = read_oid(oid)?;
        attributes.push(OfferedAttribute { name, oid })?;
        rest = further;
    }
    Ok(attributes)
}

// `attributes (NAME OID)..`, which may be left out, and nothing behind it
fn read_attributes(rest: &[u8], host: &mut Vec<u8>) -> Result<Vec<OfferedAttribute>, Trouble>
    ensures { Reads (λ attributes. (host.new.items, attributes.items)) (attributes_read host.old.items (words rest.now)) result }
{
    match next_word(rest) {
        None => Ok(Vec::new(*host.allocator())),
        Some((word, pairs)) if is_attributes(word) => place_attributes(pairs, host),
        Some(_) => Err(Trouble::NotUnderstood(Reason::WordCount)),
    }
}
