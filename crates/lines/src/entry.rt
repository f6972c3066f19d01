// An entry: a declared type as a script writes it.
ghost use Rattle.std.specs.Prelude.{◌≡◌};
ghost use Rattle.lines.specs.Entries.{declared_by, entry_parts, entry_placed, entry_read};
ghost use Rattle.lines.specs.Reading.{Reads, seen};
ghost use Rattle.type_info.specs.Meaning.{declaration_of};

use crate::host::place_name;
use crate::trouble::Trouble;
use crate::word::{read_name, read_oid};
use requests::asked::TypeAsked;
use std::alloc::Global;
use transcript::answers::Reason;
use type_info::declared::Declared;
use type_info::oid::Oid;

#[derive(Drop)]
pub enum Entry {
    Oid(Oid),
    Name(Vec<u8>),
    ArrayOf(Vec<u8>),
}

// What an entry is by its prefix.
#[derive(Clone, Copy)]
enum Prefix {
    Oid,
    Name,
    Array,
}

// `oid:N`, `name:NAME` or `array:NAME`: the prefix and what stands behind it.
fn cut_prefix(word: &[u8]) -> Result<(Prefix, &[u8]), Reason>
    ensures { seen (λ parts. (parts.0, parts.1.now)) result ≡ entry_parts word.now }
{
    if let Some(digits) = word.strip_prefix(b"oid:") {
        Ok((Prefix::Oid, digits))
    } else if let Some(written) = word.strip_prefix(b"name:") {
        Ok((Prefix::Name, written))
    } else if let Some(written) = word.strip_prefix(b"array:") {
        Ok((Prefix::Array, written))
    } else {
        Err(Reason::NotAnEntry)
    }
}

impl Entry {
    pub fn read(word: &[u8], alloc: Global) -> Result<Entry, Trouble>
        ensures { Reads declared_by (entry_read word.now) result }
    {
        let (prefix, written) = cut_prefix(word)?;
        match prefix {
            Prefix::Oid => Ok(Entry::Oid(read_oid(written)?)),
            Prefix::Name => Ok(Entry::Name(read_name(written, alloc)?)),
            Prefix::Array => Ok(Entry::ArrayOf(read_name(written, alloc)?)),
        }
    }

    // What the entry declares.
    pub fn declared(&self) -> Declared<'_>
        ensures { declaration_of result ≡ declared_by self.now }
    {
        match self {
            Entry::Oid(oid) => Declared::with_oid(*oid),
            Entry::Name(name) => Declared::with_name(name.as_slice()),
            Entry::ArrayOf(name) => Declared::array_of(name.as_slice()),
        }
    }
}

// An entry whose name is laid behind the host text, or is a span as it stands.
pub fn place_entry(word: &[u8], host: &mut Vec<u8>) -> Result<TypeAsked, Trouble>
    ensures { Reads (λ entry. (host.new.items, entry)) (entry_placed host.old.items word.now) result }
{
    let (prefix, written) = cut_prefix(word)?;
    match prefix {
        Prefix::Oid => Ok(TypeAsked::Oid(read_oid(written)?)),
        Prefix::Name => Ok(TypeAsked::Name(place_name(written, host)?)),
        Prefix::Array => Ok(TypeAsked::ArrayOf(place_name(written, host)?)),
    }
}
