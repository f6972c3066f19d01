// The host text of a line: its names, laid one after the other.
ghost use Rattle.std.specs.Prelude.{◌≡◌, length, take};
ghost use Rattle.lines.specs.Host.{name_laid, name_placed, span_read};
ghost use Rattle.lines.specs.Reading.{Reads};

use crate::trouble::Trouble;
use keys::span::Span;
use script::names::decode;
use script::numbers::unsigned;
use script::words::cut;
use transcript::answers::Reason;

// `START+LENGTH`
fn read_span(written: &[u8]) -> Option<Span>
    ensures { result ≡ span_read written.now }
{
    let (start, length) = cut(written, b'+')?;
    Some(Span {
        start: unsigned(start)?,
        length: unsigned(length)?,
    })
}

// Lays the name that a word writes behind the host text.
fn lay_name(word: &[u8], host: &mut Vec<u8>) -> Result<Span, Trouble>
    ensures placed { Reads (λ span. (host.new.items, span)) (name_laid host.old.items word.now) result }
    ensures kept { take (length host.old.items) host.new.items ≡ host.old.items }
{
    let start = host.len();
    decode(word, host)?;
    let end = u32::try_from(host.len()).map_err(|_| Reason::TooMuchText)?;
    let start = start as u32;
    Ok(Span {
        start,
        length: end - start,
    })
}

// Where the name lies that a word writes, and which is laid behind the host text; a span as it stands. Whatever comes of it,
// the text that was there stays at the front.
pub fn place_name(word: &[u8], host: &mut Vec<u8>) -> Result<Span, Trouble>
    ensures placed { Reads (λ span. (host.new.items, span)) (name_placed host.old.items word.now) result }
    ensures kept { take (length host.old.items) host.new.items ≡ host.old.items }
{
    match word {
        [b'@', written @ ..] => read_span(written).ok_or(Trouble::NotUnderstood(Reason::NotAName)),
        _ => lay_name(word, host),
    }
}
