// What a single word says.
ghost use Rattle.std.specs.Prelude.{◌≡◌, ◌<◌, length, IfOk};
ghost use Rattle.script.specs.Words.{words};
ghost use Rattle.lines.specs.Reading.{FirstRead, OnlyRead, Reads, attribute_link_read, attribute_number_read, code_read, link_read, name_read, number_read, oid_read};

use crate::trouble::Trouble;
use script::names::decode;
use script::numbers::{signed, unsigned};
use script::words;
use std::alloc::Global;
use transcript::answers::Reason;
use type_info::oid::{AttributeNumber, Oid};

// The first word of a line and what follows it.
pub fn first_word(line: &[u8]) -> Result<(&[u8], &[u8]), Reason>
    ensures first { FirstRead (words line.now) result }
    ensures shorter { IfOk result (λ found. length found.1.now < length line.now) }
{
    words::next_word(line).ok_or(Reason::WordCount)
}

// The word of a line that has just one.
pub fn only_word(line: &[u8]) -> Result<&[u8], Reason>
    ensures { OnlyRead (words line.now) result }
{
    words::only_word(line).ok_or(Reason::WordCount)
}

pub fn read_number(word: &[u8]) -> Result<u32, Reason>
    ensures { result ≡ number_read word.now }
{
    unsigned(word).ok_or(Reason::NotANumber)
}

pub fn read_oid(word: &[u8]) -> Result<Oid, Reason>
    ensures { result ≡ oid_read word.now }
{
    read_number(word).map(Oid)
}

// An OID where 0 says that it is absent.
pub fn read_link(word: &[u8]) -> Result<Option<Oid>, Reason>
    ensures { result ≡ link_read word.now }
{
    match read_oid(word)? {
        Oid(0) => Ok(None),
        oid => Ok(Some(oid)),
    }
}

pub fn read_attribute_number(word: &[u8]) -> Result<AttributeNumber, Reason>
    ensures { result ≡ attribute_number_read word.now }
{
    signed(word)
        .map(AttributeNumber)
        .ok_or(Reason::NotAnAttributeNumber)
}

// An attribute number where 0 says that it is absent.
pub fn read_attribute_link(word: &[u8]) -> Result<Option<AttributeNumber>, Reason>
    ensures { result ≡ attribute_link_read word.now }
{
    match read_attribute_number(word)? {
        AttributeNumber(0) => Ok(None),
        number => Ok(Some(number)),
    }
}

// The room that most names fit in.
const USUAL: usize = 64;

// The name that a word writes.
pub fn read_name(word: &[u8], alloc: Global) -> Result<Vec<u8>, Trouble>
    ensures { Reads (λ name. name.items) (name_read word.now) result }
{
    let mut name = Vec::with_capacity(alloc, USUAL.min(word.len()))?;
    decode(word, &mut name)?;
    Ok(name)
}

// The byte that a word writes as a name.
pub fn read_code(word: &[u8], alloc: Global) -> Result<u8, Trouble>
    ensures { Reads (λ code. code) (code_read word.now) result }
{
    let name = read_name(word, alloc)?;
    match name.as_slice() {
        [code] => Ok(*code),
        _ => Err(Trouble::NotUnderstood(Reason::NotACode)),
    }
}
