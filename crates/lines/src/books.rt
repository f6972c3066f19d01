// The sizes of a new book's tables.
ghost use Rattle.std.specs.Prelude.{◌≡◌};
ghost use Rattle.script.specs.Words.{words};
ghost use Rattle.lines.specs.Books.{book_line, nothing_asked, size_read, sizes_read, table_read};

use book::sizes::{BookTable, Sizes};
use script::numbers::unsigned;
use script::words::{cut, next_word};
use transcript::answers::Reason;

// The table that a key names.
fn read_table(key: &[u8]) -> Option<BookTable>
    ensures { result ≡ table_read key.now }
{
    match key {
        b"descriptors" => Some(BookTable::Descriptors),
        b"parts" => Some(BookTable::Parts),
        b"names" => Some(BookTable::Names),
        b"arrays" => Some(BookTable::Arrays),
        b"text" => Some(BookTable::Text),
        b"columns" => Some(BookTable::Columns),
        b"relations" => Some(BookTable::Relations),
        _ => None,
    }
}

// `KEY=N`
fn read_size(word: &[u8]) -> Option<(BookTable, u32)>
    ensures { result ≡ size_read word.now }
{
    let (key, size) = cut(word, b'=')?;
    Some((read_table(key)?, unsigned(size)?))
}

// The sizes that are asked for, of each table once, in the order of the tables.
fn read_sizes(line: &[u8]) -> Result<[Option<u32>; 7], Reason>
    ensures { result ≡ sizes_read nothing_asked (words line.now) }
{
    let mut rest = line;
    let mut sizes = [None; 7];
    while let Some((word, further)) = next_word(rest) {
        let (table, size) = read_size(word).ok_or(Reason::NotASize)?;
        let asked = &mut sizes[table as usize];
        if asked.is_some() {
            return Err(Reason::WordCount);
        }
        *asked = Some(size);
        rest = further;
    }
    Ok(sizes)
}

// `book [descriptors=N] [parts=N] [names=N] [arrays=N] [text=N] [columns=N] [relations=N]`, in any order: a table that is not
// named has as much as a book can use
pub fn read_book(rest: &[u8]) -> Result<Sizes, Reason>
    ensures { result ≡ book_line (words rest.now) }
{
    let [descriptors, parts, names, arrays, text, columns, relations] = read_sizes(rest)?;
    Ok(Sizes {
        descriptors: descriptors.unwrap_or(512) as usize,
        parts: parts.unwrap_or(4096) as usize,
        names: names.unwrap_or(1024) as usize,
        arrays: arrays.unwrap_or(1024) as usize,
        text: text.unwrap_or(65536) as usize,
        columns: columns.unwrap_or(1024) as usize,
        relations: relations.unwrap_or(128) as usize,
    })
}
