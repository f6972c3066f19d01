// Numbers and names as they are written in a script.
ghost use Rattle.std.specs.Prelude.{◌≡◌, ◌+◌, ◌<◌, ◌≤◌, ◌++◌, IfSome, Some, decimal, length, take};
ghost use Rattle.std.specs.Fmt.{WritesOnOk};
ghost use Rattle.std.specs.List.{flat_map};
ghost use Rattle.script.specs.Names.{hex_upper, shown, shown_byte};
ghost use Rattle.transcript.specs.Appends.{Appends};

use std::alloc::AllocError;
use std::fmt::Write;
use std::{fmt, str};

// What was printed before, as formatting writes to it.
#[derive(Drop)]
struct Transcript<'o> {
    printed: &'o mut Vec<u8>,
}

impl fmt::Write for Transcript<'_> {
    ghost write_str_gives = { λ before bytes after. (after.printed.ghost_name ≡ before.printed.ghost_name) × (after.printed.now.items ≡ before.printed.now.items ++ bytes) };

    fn write_str(&mut self, text: &str) -> fmt::Result {
        self.printed
            .extend_from_slice(text.as_bytes())
            .map_err(|_| fmt::Error)
    }
}

// Lays the text of a value behind what was printed before.
pub(crate) fn print<D: fmt::Display + Drop>(out: &mut Vec<u8>, value: D) -> Result<(), AllocError>
    ensures { IfSome (D.output value) (λ text. Appends text out.old.items out.new.items result) }
{
    let mut transcript = Transcript { printed: out };
    let written = write!(transcript, "{value}");
    let Transcript { printed } = transcript;
    // nothing is done here: the proof reads what `out` holds from this reference
    let _ = &*printed;
    written.map_err(|_| AllocError)
}

// The decimal digits of a number.
pub fn number(out: &mut Vec<u8>, n: u64) -> Result<(), AllocError>
    ensures { Appends (decimal n) out.old.items out.new.items result }
{
    print(out, n)
}

// A name with %HH for every byte that would not read back as itself.
pub fn name(out: &mut Vec<u8>, bytes: &[u8]) -> Result<(), AllocError>
    ensures { Appends (shown bytes.now) out.old.items out.new.items result }
{
    print(out, Shown(bytes))
}

// A name as `name` prints it.
#[derive(Clone, Copy)]
pub(crate) struct Shown<'a>(pub(crate) &'a [u8]);

impl fmt::Display for Shown<'_> {
    ghost output = { λ name. Some (shown name.0.now) };

    fn fmt<W: fmt::Write>(&self, f: &mut fmt::Formatter<W>) -> fmt::Result {
        match self.0 {
            [] => f.write_str("%-"),
            [b'@', rest @ ..] => {
                f.write_str("%40")?;
                write_bytes(rest, f)
            }
            bytes => write_bytes(bytes, f),
        }
    }
}

// So many bytes of a name are written at a time, each as three at most.
const AT_ONCE: usize = 32;

fn hex_upper(digit: u8) -> u8
    requires { digit < 16 }
    ensures { result ≡ hex_upper digit }
{
    if digit < 10 {
        b'0' + digit
    } else {
        b'A' + (digit - 10)
    }
}

// Lays what is shown of a byte behind the first `end` bytes, and tells how many there are then.
fn lay_byte(text: &mut [u8; 96], end: usize, byte: u8) -> usize
    requires { end + 3 ≤ 96 }
    ensures laid { take result text.new ≡ take end text.old ++ shown_byte byte }
    ensures few { result ≤ end + 3 }
{
    if byte.is_ascii_graphic() && byte != b'%' {
        text[end] = byte;
        return end + 1;
    }
    text[end] = b'%';
    text[end + 1] = hex_upper(byte / 16);
    text[end + 2] = hex_upper(byte % 16);
    end + 3
}

fn write_some<W: fmt::Write>(bytes: &[u8], f: &mut fmt::Formatter<W>) -> fmt::Result
    requires { length bytes.now ≤ 32 }
    ensures { WritesOnOk W.write_str_gives f.old result (flat_map shown_byte bytes.now) f.new }
{
    let mut text = [0; 96];
    let mut end = 0;
    for byte in bytes {
        end = lay_byte(&mut text, end, *byte);
    }
    match str::from_utf8(&text[..end]) {
        Ok(text) => f.write_str(text),
        Err(_) => unreachable!(),
    }
}

fn write_bytes<W: fmt::Write>(bytes: &[u8], f: &mut fmt::Formatter<W>) -> fmt::Result
    ensures { WritesOnOk W.write_str_gives f.old result (flat_map shown_byte bytes.now) f.new }
{
    let mut rest = bytes;
    while !rest.is_empty() {
        let (some, further) = rest.split_at(AT_ONCE.min(rest.len()));
        write_some(some, f)?;
        rest = further;
    }
    Ok(())
}
