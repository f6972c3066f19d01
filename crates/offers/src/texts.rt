// Texts read from the host's text, by their spans.
ghost use Rattle.std.specs.Prelude.{◌≡◌};
ghost use Rattle.catalog.specs.Meaning.{column_told, text_of};
ghost use Rattle.offers.specs.Offered.{offered_column, offered_name, text_at};
ghost use Rattle.std.specs.Option.{option_map};

use catalog::text::Text;
use catalog::values::{Column, LongName};
use keys::span::Span;

// Nothing where the span lies outside the text, or has no bytes or more than N.
pub fn text_at<const N: usize>(host: &[u8], span: Span) -> Option<Text<N>>
    ensures { option_map text_of result ≡ text_at N host.now span }
{
    let start = span.start as usize;
    let end = start + span.length as usize;
    Text::new(host.get(start..end)?)
}

pub fn read_name(host: &[u8], span: Span) -> Option<LongName>
    ensures { option_map text_of result ≡ offered_name host.now span }
{
    text_at(host, span)
}

pub fn read_column(host: &[u8], table: Span, column: Span) -> Option<Column>
    ensures { column_told result ≡ offered_column host.now table column }
{
    let table = text_at(host, table)?;
    let name = text_at(host, column)?;
    Some(Column { table, name })
}
