// A text cut at a separator, its lines, and the words of a line.
ghost use Rattle.std.specs.Prelude.{◌≡◌};
ghost use Rattle.std.specs.Option.{option_map};
ghost use Rattle.script.specs.Words.{CutAt, FirstLine, FirstWord, RestShorter, only_of, words};

// What stands before the first `separator` and what stands behind it; nothing where there is none.
pub fn cut(text: &[u8], separator: u8) -> Option<(&[u8], &[u8])>
    ensures parts { CutAt separator text.now result }
    ensures shorter { RestShorter text.now result }
{
    let end = text.iter().position(|b| *b == separator)?;
    Some((&text[..end], &text[end + 1..]))
}

// The first line of a text, without its line feed, and what comes after it; nothing where the text is empty.
pub fn first_line(text: &[u8]) -> Option<(&[u8], &[u8])>
    ensures first { FirstLine text.now result }
    ensures shorter { RestShorter text.now result }
{
    if text.is_empty() {
        return None;
    }
    Some(cut(text, b'\n').unwrap_or((text, &[])))
}

// The first word of a line and what follows it; nothing where the line has no word.
pub fn next_word(line: &[u8]) -> Option<(&[u8], &[u8])>
    ensures first { FirstWord line.now result }
    ensures shorter { RestShorter line.now result }
{
    let start = line.iter().position(|b| *b != b' ')?;
    let rest = &line[start..];
    let end = rest.iter().position(|b| *b == b' ').unwrap_or(rest.len());
    Some(rest.split_at(end))
}

// The word of a line that has just one.
pub fn only_word(line: &[u8]) -> Option<&[u8]>
    ensures { option_map (λ x. x.now) result ≡ only_of (words line.now) }
{
    let (word, rest) = next_word(line)?;
    match next_word(rest) {
        None => Some(word),
        Some(_) => None,
    }
}
