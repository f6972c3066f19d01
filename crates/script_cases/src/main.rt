// Prints what the readers of a script answer at each limit.
#![tactic(auto)]

use script::names::decode;
use script::numbers::{signed, unsigned};
use script::words::{cut, next_word, only_word};
use std::io;

const UNSIGNED: &[&[u8]] = &[
    b"",
    b"0",
    b"00",
    b"4294967295",
    b"4294967296",
    b"04294967295",
    b"99999999999999999999",
    b"-1",
    b"+1",
    b"1x",
    b"x",
];

const SIGNED: &[&[u8]] = &[
    b"", b"0", b"-0", b"+0", b"32767", b"32768", b"-32768", b"-32769", b"--1", b"-",
];

const NAMES: &[&[u8]] = &[
    b"", b"a", b"%-", b"a%-b", b"%-a", b"%", b"%4", b"%41", b"%4g", b"%zz", b"%00", b"%ff", b"%FF",
    b"%Ff", b"%9a", b"%25", b"@a", b"%40a", b"a@b", b"!~", b"a b", b"a\x1fb", b"a\x7fb", b"a\x80b",
    b"%/0", b"%:0", b"%@0", b"%G0", b"%`0", b"%g0", b"a%4",
];

const LINES: &[&[u8]] = &[
    b"", b"  ", b"a", b"  a b", b"a  b", b" a ", b"ab  ", b"\ta b", b"\t",
];

// Behind a dot (46), which a refused word leaves as it is.
fn show_name(rt: &HostRuntime, word: &[u8]) -> io::Result<()> {
    let mut text = vec![in rt.alloc(); b'.']?;
    let done = decode(word, &mut text);
    println!(rt; "name '{}' {done:?} {text:?}", word.escape_ascii())
}

fn show_line(rt: &HostRuntime, line: &[u8]) -> io::Result<()> {
    let shown = line.escape_ascii();
    let parts = cut(line, b' ');
    println!(rt; "cut '{shown}' {parts:?}")?;
    let first = next_word(line);
    println!(rt; "next_word '{shown}' {first:?}")?;
    let only = only_word(line);
    println!(rt; "only_word '{shown}' {only:?}")
}

fn main(rt: HostRuntime) -> io::Result<()> {
    for word in UNSIGNED {
        let number = unsigned(word);
        println!(rt; "unsigned '{}' {number:?}", word.escape_ascii())?;
    }
    for word in SIGNED {
        let number = signed(word);
        println!(rt; "signed '{}' {number:?}", word.escape_ascii())?;
    }
    for word in NAMES {
        show_name(&rt, word)?;
    }
    for line in LINES {
        show_line(&rt, line)?;
    }
    Ok(())
}
