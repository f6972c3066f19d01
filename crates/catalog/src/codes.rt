// The two code bytes of a row of pg_type.
ghost use Rattle.std.specs.Prelude.{Some};
ghost use Rattle.catalog.specs.Codes.{TypCategoryRead, TypTypeRead, unknown_text};

use std::error::Error;
use std::fmt;

#[derive(Clone, Copy, PartialEq, Eq, Debug)]
pub enum TypType {
    Base,
    Composite,
    Domain,
    Enum,
    Pseudo,
    Range,
}

#[derive(Clone, Copy, PartialEq, Eq, Debug)]
pub enum TypCategory {
    Array,
    Boolean,
    Composite,
    DateTime,
    Enum,
    Geometric,
    Network,
    Numeric,
    Pseudo,
    Range,
    String,
    Timespan,
    User,
    BitString,
    Unknown,
}

// A byte that is no code of its kind.
#[derive(Clone, Copy, PartialEq, Eq, Debug)]
pub struct UnknownCode(pub u8);

impl TryFrom<u8> for TypType {
    type Error = UnknownCode;

    ghost try_from_gives = { TypTypeRead };

    fn try_from(byte: u8) -> Result<TypType, UnknownCode> {
        match byte {
            b'b' => Ok(TypType::Base),
            b'c' => Ok(TypType::Composite),
            b'd' => Ok(TypType::Domain),
            b'e' => Ok(TypType::Enum),
            b'p' => Ok(TypType::Pseudo),
            b'r' => Ok(TypType::Range),
            _ => Err(UnknownCode(byte)),
        }
    }
}

impl TryFrom<u8> for TypCategory {
    type Error = UnknownCode;

    ghost try_from_gives = { TypCategoryRead };

    fn try_from(byte: u8) -> Result<TypCategory, UnknownCode> {
        match byte {
            b'A' => Ok(TypCategory::Array),
            b'B' => Ok(TypCategory::Boolean),
            b'C' => Ok(TypCategory::Composite),
            b'D' => Ok(TypCategory::DateTime),
            b'E' => Ok(TypCategory::Enum),
            b'G' => Ok(TypCategory::Geometric),
            b'I' => Ok(TypCategory::Network),
            b'N' => Ok(TypCategory::Numeric),
            b'P' => Ok(TypCategory::Pseudo),
            b'R' => Ok(TypCategory::Range),
            b'S' => Ok(TypCategory::String),
            b'T' => Ok(TypCategory::Timespan),
            b'U' => Ok(TypCategory::User),
            b'V' => Ok(TypCategory::BitString),
            b'X' => Ok(TypCategory::Unknown),
            _ => Err(UnknownCode(byte)),
        }
    }
}

impl fmt::Display for UnknownCode {
    ghost output = { λ code. Some (unknown_text code) };

    fn fmt<W: fmt::Write>(&self, f: &mut fmt::Formatter<W>) -> fmt::Result {
        write!(f, "unknown code {}", self.0)
    }
}

impl Error for UnknownCode {}
