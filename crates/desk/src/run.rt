// The lines of a script, until one asks for a new book.
ghost use Rattle.std.specs.Prelude.{◌≡◌, ◌<◌, ◌≤◌, ◌++◌, false, true, length, vec_len, IfOk, None};
ghost use Rattle.std.specs.Option.{is_some};
ghost use Rattle.desk.specs.Run.{StepEnded, is_step, no_steps};
ghost use Rattle.script.specs.Words.{lines, words};
ghost use Rattle.session.specs.Run.{after_echo, all_done, all_printed, done, printed, run_of};
ghost use Rattle.transcript.specs.Appends.{Behind};

use crate::steps::Desk;
use book::sizes::Sizes;
use lines::books::read_book;
use lines::trouble::Trouble;
use lines::verb::{StepVerb, read_step};
use script::words::{first_line, next_word};
use session::session::Session;
use std::alloc::AllocError;
use transcript::steps;

// What is left of a script, and the slots of the new book that the line before it asks for.
#[derive(Drop)]
pub struct Left<'t> {
    pub rest: &'t [u8],
    pub book: Option<Sizes>,
}

// The step that a line asks for, and what follows its first word.
fn step_of(line: &[u8]) -> Option<(StepVerb, &[u8])>
    ensures { is_some result ≡ is_step (words line.now) }
{
    let (verb, rest) = next_word(line)?;
    Some((read_step(verb)?, rest))
}

// `book [descriptors=N] [parts=N] [names=N] [arrays=N] [text=N] [columns=N] [relations=N]`
fn answer_book(rest: &[u8], out: &mut Vec<u8>) -> Result<Sizes, Trouble> {
    let slots = read_book(rest)?;
    steps::book(out, slots.capacities())?;
    Ok(slots)
}

// The slots of the new book that is asked for.
fn book_line(
    session: &mut Session<'_>,
    rest: &[u8],
    out: &mut Vec<u8>,
) -> Result<Option<Sizes>, AllocError>
    ensures { IfOk result (λ book. StepEnded (run_of session.old) (run_of session.new)) }
{
    match answer_book(rest, out) {
        Ok(slots) => Ok(Some(slots)),
        Err(trouble) => {
            session.end(Err(trouble), out)?;
            Ok(None)
        }
    }
}

impl<'a> Desk<'a> {
    // Answers a line that was echoed, and tells the slots of a new book where it asks for one.
    fn step_line(
        &mut self,
        session: &mut Session<'_>,
        step: StepVerb,
        rest: &[u8],
        out: &mut Vec<u8>,
    ) -> Result<Option<Sizes>, AllocError>
        ensures { IfOk result (λ book. StepEnded (run_of session.old) (run_of session.new)) }
    {
        let answered = match step {
            StepVerb::Book => return book_line(session, rest, out),
            StepVerb::Fill => self.answer_fill(session, rest, out),
            StepVerb::Describe => self.answer_describe(rest, out),
            StepVerb::Ordinal => self.answer_ordinal(rest, out),
            StepVerb::ElementOf => self.answer_element_of(rest, out),
            StepVerb::Resolve => self.answer_resolve(session, rest, out),
            StepVerb::Bind => self.answer_bind(session, rest, out),
        };
        session.end(answered, out)?;
        Ok(None)
    }

    // Carries out one line and prints what it did, and tells the slots of a new book where it asks for one.
    pub fn line(
        &mut self,
        session: &mut Session<'_>,
        line: &[u8],
        out: &mut Vec<u8>,
    ) -> Result<Option<Sizes>, AllocError>
        ensures others { is_step (words line.now) ≡ false → IfOk result (λ book. (book ≡ None) × (run_of session.new ≡ done (run_of session.old) (words line.now))) }
        ensures printed { is_step (words line.now) ≡ false → IfOk result (λ book. Behind out.old.items (printed (run_of session.old) line.now) out.new.items) }
        ensures steps { is_step (words line.now) ≡ true → IfOk result (λ book. StepEnded (after_echo (run_of session.old)) (run_of session.new)) }
    {
        let Some((step, rest)) = step_of(line) else {
            session.line(line, out)?;
            return Ok(None);
        };
        session.begin(line, out)?;
        self.step_line(session, step, rest, out)
    }

    // Carries out line after line until the text is at its end, `enough` bytes are printed or a new book is asked for, and hands
    // back what is left. However a script without steps is run piece by piece, the same is printed and done in the end.
    #[tactic(auto, using(crate::proofs::NoLine::no_bytes))]
    pub fn run<'t>(
        &mut self,
        session: &mut Session<'_>,
        text: &'t [u8],
        enough: usize,
        out: &mut Vec<u8>,
    ) -> Result<Left<'t>, AllocError>
        ensures prints { no_steps (lines text.now) ≡ true → IfOk result (λ left. out.new.items ++ all_printed (run_of session.new) (lines left.rest.now) ≡ out.old.items ++ all_printed (run_of session.old) (lines text.now)) }
        ensures counts { no_steps (lines text.now) ≡ true → IfOk result (λ left. all_done (run_of session.new) (lines left.rest.now) ≡ all_done (run_of session.old) (lines text.now)) }
        ensures forward { IfOk result (λ left. vec_len out.old < enough → 0 < length text.now → length left.rest.now < length text.now) }
        ensures books { no_steps (lines text.now) ≡ true → IfOk result (λ left. left.book ≡ None) }
        ensures stops { IfOk result (λ left. left.book ≡ None → 0 < length left.rest.now → enough ≤ vec_len out.new) }
    {
        let mut rest = text;
        while out.len() < enough
            && let Some((line, further)) = first_line(rest)
        {
            let book = self.line(session, line, out)?;
            rest = further;
            if book.is_some() {
                return Ok(Left { rest, book });
            }
        }
        Ok(Left { rest, book: None })
    }
}
