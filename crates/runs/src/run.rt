// Runs a script on books and catalogs of its own, and writes out what it prints.
ghost use Rattle.std.specs.Prelude.{◌≡◌, ◌<◌, length, vec_len, IfOk, OnOk};

use anyhow::anyhow;
use book::tables::Book;
use calls::work::Work;
use desk::run::Left;
use desk::steps::Desk;
use heap::books::{BookMemory, FULL};
use heap::tables::TableMemory;
use heap::work::StepMemory;
use session::session::Session;
use std::io;
use std::io::Write;

// Where this much has been printed it is written out.
const ENOUGH: usize = 65536;

// Writes out what was printed, and empties `out`.
fn write_out(rt: &HostRuntime, out: &mut Vec<u8>) -> io::Result<()>
    ensures { OnOk result (vec_len out.new ≡ 0) }
{
    rt.stdout().write_all(out.as_slice())?;
    out.clear();
    Ok(())
}

// Carries out lines on one book until one asks for a new book or the text is at its end, and writes out what was printed.
fn run_desk<'t>(
    rt: &HostRuntime,
    session: &mut Session<'_>,
    desk: &mut Desk<'_>,
    text: &'t [u8],
    out: &mut Vec<u8>,
) -> anyhow::Result<Left<'t>>
    requires { vec_len out.old ≡ 0 }
    ensures forward { IfOk result (λ left. 0 < length text.now → length left.rest.now < length text.now) }
    ensures empties { IfOk result (λ left. vec_len out.new ≡ 0) }
{
    let mut left = Left {
        rest: text,
        book: None,
    };
    while left.book.is_none() && !left.rest.is_empty() {
        left = desk.run(session, left.rest, ENOUGH, out)?;
        write_out(rt, out)?;
    }
    Ok(left)
}

// Carries out every line, on one book after the other, writes out what was printed, and tells whether all were understood.
fn run(rt: &HostRuntime, session: &mut Session<'_>, text: &[u8]) -> anyhow::Result<bool> {
    let alloc = rt.alloc();
    let mut books = BookMemory::new(alloc)?;
    let mut steps = StepMemory::new(alloc)?;
    let mut out = Vec::new(alloc);
    let mut rest = text;
    let mut slots = FULL;
    while !rest.is_empty() {
        let book = Book::new(books.lend(slots));
        let work = Work::new(steps.lend()).ok_or(anyhow!("no memory for a step"))?;
        let mut desk = Desk::new(book, work, alloc);
        let left = run_desk(rt, session, &mut desk, rest, &mut out)?;
        rest = left.rest;
        slots = left.book.unwrap_or(FULL);
    }
    session.close(&mut out)?;
    write_out(rt, &mut out)?;
    Ok(session.all_understood())
}

// Runs the script, and tells whether every line was understood.
pub fn run_script(rt: &HostRuntime, text: &[u8]) -> anyhow::Result<bool> {
    let mut memory = TableMemory::new(rt.alloc())?;
    let mut session = Session::new(memory.lend()).ok_or(anyhow!("no memory for a row table"))?;
    run(rt, &mut session, text)
}
