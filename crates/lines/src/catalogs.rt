// The catalog that steps ask, and its allowance.
ghost use Rattle.std.specs.Prelude.{◌≡◌};
ghost use Rattle.script.specs.Words.{words};
ghost use Rattle.lines.specs.Catalogs.{allowance_line, use_line};

use crate::word::{only_word, read_number};
use transcript::answers::{InUse, Reason};

// `use rows` or `use shelf`
pub fn read_use(rest: &[u8]) -> Result<InUse, Reason>
    ensures { result ≡ use_line (words rest.now) }
{
    match only_word(rest)? {
        b"rows" => Ok(InUse::Rows),
        b"shelf" => Ok(InUse::Shelf),
        _ => Err(Reason::NotACatalog),
    }
}

// `allowance N`
pub fn read_allowance(rest: &[u8]) -> Result<u32, Reason>
    ensures { result ≡ allowance_line (words rest.now) }
{
    read_number(only_word(rest)?)
}
