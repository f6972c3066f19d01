// Names with %HH for any byte and %- for the empty name.
ghost use Rattle.std.specs.Prelude.{◌≡◌, Some};
ghost use Rattle.std.specs.declared.alloc.AllocError.{AllocError};
ghost use Rattle.script.specs.declared.names.NameFault.TheVariants.{OutOfMemory};
ghost use Rattle.script.specs.Names.{Decoded, Laid, NextByte, ShownReadsBack, fault_text, hex_byte, hex_digit};

use std::alloc::{AllocError, AllocFailed};
use std::error::Error;
use std::fmt;

// Why a name was not laid into the text.
#[derive(Clone, Copy, PartialEq, Eq, Debug)]
pub enum NameFault {
    NotAName,
    OutOfMemory(AllocError),
}

impl fmt::Display for NameFault {
    ghost output = { λ fault. Some (fault_text fault) };

    fn fmt<W: fmt::Write>(&self, f: &mut fmt::Formatter<W>) -> fmt::Result {
        match self {
            NameFault::NotAName => write!(f, "not a name"),
            NameFault::OutOfMemory(_) => write!(f, "out of memory"),
        }
    }
}

impl Error for NameFault {}

impl From<AllocError> for NameFault {
    ghost from_gives = { λ e r. r ≡ OutOfMemory e };

    fn from(e: AllocError) -> NameFault {
        NameFault::OutOfMemory(e)
    }
}

impl<T: Drop> From<AllocFailed<T>> for NameFault {
    ghost from_gives = { λ e r. (a : AllocError) × (r ≡ OutOfMemory a) };

    fn from(e: AllocFailed<T>) -> NameFault {
        NameFault::OutOfMemory(AllocError::from(e))
    }
}

// The byte that two hexadecimal digits write.
fn hex_byte(high: u8, low: u8) -> Option<u8>
    ensures { result ≡ hex_byte (hex_digit high) (hex_digit low) }
{
    let high = char::from(high).to_digit(16)?;
    let low = char::from(low).to_digit(16)?;
    Some((high * 16 + low) as u8)
}

// The first byte that a written name stands for, and the rest of what is written; nothing at its end.
fn next_byte(written: &[u8]) -> Result<Option<(u8, &[u8])>, NameFault>
    ensures { NextByte written.now result }
{
    match written {
        [] => Ok(None),
        [b'%', high, low, rest @ ..] => {
            let b = hex_byte(*high, *low).ok_or(NameFault::NotAName)?;
            Ok(Some((b, rest)))
        }
        [b, rest @ ..] if *b != b'%' && b.is_ascii_graphic() => Ok(Some((*b, rest))),
        _ => Err(NameFault::NotAName),
    }
}

// Lays the name that a word writes behind what `text` holds.
pub fn decode(word: &[u8], text: &mut Vec<u8>) -> Result<(), NameFault>
    ensures { Decoded word.now text.old.items text.new.items result }
{
    match word {
        b"%-" => Ok(()),
        [b'@', ..] | [] => Err(NameFault::NotAName),
        _ => {
            let start = text.len();
            let done = decode_bytes(word, text);
            if done.is_err() {
                text.truncate(start);
            }
            done
        }
    }
}

fn decode_bytes(word: &[u8], text: &mut Vec<u8>) -> Result<(), NameFault>
    ensures { Laid word.now text.old.items text.new.items result }
{
    let mut rest = word;
    while let Some((b, further)) = next_byte(rest)? {
        text.push(b)?;
        rest = further;
    }
    Ok(())
}

// What is printed of a name is read as that name.
pub fn names_read_back()
    ensures { ShownReadsBack }
{}
