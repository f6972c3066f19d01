// The lines of a script, one by one, and how many there were.
ghost use Rattle.std.specs.Prelude.{◌≡◌, MatchOption, OnOk, ◌==◌};
ghost use Rattle.row_table.specs.Table.{Whole};
ghost use Rattle.script.specs.Words.{words};
ghost use Rattle.session.specs.Run.{Closes, Replied, after_echo, after_read, answered, done, ended, is_comment, printed, run_of, start};
ghost use Rattle.session.specs.Catalogs.{allowance_in_use};
ghost use Rattle.session.specs.Lines.{reply};
ghost use Rattle.transcript.specs.Appends.{Appends};
ghost use Rattle.transcript.specs.Printed.{closing_text, echo_text};

use crate::catalogs::Catalogs;
use lines::trouble::Trouble;
use row_table::memory::Memory;
use row_table::table::RowTable;
use script::words::next_word;
use shelf::shelf::Shelf;
use std::alloc::AllocError;
use transcript::answers;
use transcript::answers::InUse;

#[derive(Drop)]
pub struct Session<'a> {
    read: u64,
    echoed: u64,
    refused: u64,
    misread: u64,
    pub catalogs: Catalogs<'a>,
}

fn is_comment(verb: &[u8]) -> bool
    ensures { result ≡ is_comment verb.now }
{
    verb.starts_with(b"#")
}

impl<'a> Session<'a> {
    // None where the memory is not of the row table's size.
    pub fn new(memory: Memory<'a>) -> Option<Session<'a>>
        ensures { MatchOption result (Whole memory.entry → ⊥) (λ s. run_of s ≡ start) }
    {
        let catalogs = Catalogs::new(memory)?;
        Some(Session {
            read: 0,
            echoed: 0,
            refused: 0,
            misread: 0,
            catalogs,
        })
    }

    // Counts a line that has no answer.
    fn skip(&mut self)
        ensures { run_of self.new ≡ after_read (run_of self.old) }
    {
        self.read = self.read.saturating_add(1);
    }

    // Counts a line that is to be answered, and prints it.
    pub fn begin(&mut self, line: &[u8], out: &mut Vec<u8>) -> Result<(), AllocError>
        ensures prints { Appends (echo_text line.now) out.old.items out.new.items result }
        ensures counts { OnOk result (run_of self.new ≡ after_echo (run_of self.old)) }
    {
        self.read = self.read.saturating_add(1);
        self.echoed = self.echoed.saturating_add(1);
        answers::echo(out, line)
    }

    // Counts how a line was answered, which is whether it was a call that was refused, or why it is not understood, which is
    // printed.
    pub fn end(
        &mut self,
        answered: Result<bool, Trouble>,
        out: &mut Vec<u8>,
    ) -> Result<(), AllocError>
        ensures prints { Closes (run_of self.old).read answered out.old.items out.new.items result }
        ensures counts { OnOk result (run_of self.new ≡ ended answered (run_of self.old)) }
    {
        match answered {
            Ok(refused) => {
                if refused {
                    self.refused = self.refused.saturating_add(1);
                }
                Ok(())
            }
            Err(Trouble::NotUnderstood(why)) => {
                self.misread = self.misread.saturating_add(1);
                answers::not_understood(out, self.read, why)
            }
            Err(Trouble::OutOfMemory(e)) => Err(e),
        }
    }

    // The catalog that steps ask: the row table or the shelf.
    pub fn in_use(&self) -> InUse
        ensures { result ≡ (run_of self.now).catalogs.in_use }
    {
        self.catalogs.in_use()
    }

    pub fn rows(&mut self) -> &mut RowTable<'a>
        ensures { result.now ≡ self.old.catalogs.rows }
    {
        let catalogs = &mut self.catalogs;
        &mut catalogs.rows
    }

    pub fn shelf(&mut self) -> &mut Shelf
        ensures { result.now ≡ self.old.catalogs.shelf }
    {
        let catalogs = &mut self.catalogs;
        &mut catalogs.shelf
    }

    // What the catalog in use may spend.
    pub fn allowance(&self) -> u32
        ensures { result ≡ allowance_in_use (run_of self.now).catalogs }
    {
        self.catalogs.allowance()
    }

    // Prints the answer to a line that was echoed.
    fn answer_line(&mut self, verb: &[u8], rest: &[u8], out: &mut Vec<u8>) -> Result<(), AllocError>
        ensures prints { Appends (answered (run_of self.old).read (reply (run_of self.old).catalogs verb.now (words rest.now))) out.old.items out.new.items result }
        ensures counts { OnOk result (Replied (reply (run_of self.old).catalogs verb.now (words rest.now)) (run_of self.old) (run_of self.new)) }
    {
        let answered = self.catalogs.answer(verb, rest, out);
        self.end(answered, out)
    }

    // Carries out one line and prints what it did: nothing for a blank line and for a comment.
    pub fn line(&mut self, line: &[u8], out: &mut Vec<u8>) -> Result<(), AllocError>
        ensures prints { Appends (printed (run_of self.old) line.now) out.old.items out.new.items result }
        ensures counts { OnOk result (run_of self.new ≡ done (run_of self.old) (words line.now)) }
    {
        let Some((verb, rest)) = next_word(line) else {
            self.skip();
            return Ok(());
        };
        if is_comment(verb) {
            self.skip();
            return Ok(());
        }
        self.begin(line, out)?;
        self.answer_line(verb, rest, out)
    }

    // The last line that is printed.
    pub fn close(&self, out: &mut Vec<u8>) -> Result<(), AllocError>
        ensures { Appends (closing_text (run_of self.now).echoed (run_of self.now).refused (run_of self.now).misread) out.old.items out.new.items result }
    {
        answers::closing(out, self.echoed, self.refused, self.misread)
    }

    // Whether every line so far was understood.
    pub fn all_understood(&self) -> bool
        ensures { result ≡ ((run_of self.now).misread == 0) }
    {
        self.misread == 0
    }
}
