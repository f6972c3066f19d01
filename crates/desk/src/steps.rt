// What the lines of the steps do to the book, and what is printed for them.
ghost use Rattle.session.specs.Run.{AlikeCounted, run_of};

use crate::bound::Bound;
use crate::buffers::buffer_slots;
use book::tables::Book;
use calls::work::Work;
use calls::{describing, filling, resolving};
use faults::call::CallFault;
use lines::steps::{FillLine, ResolveLine};
use lines::trouble::Trouble;
use lines::word::{only_word, read_oid};
use session::session::Session;
use std::alloc::Global;
use transcript::answers::InUse;
use transcript::steps::Step;
use transcript::{steps, tree, types};

// A book, the working memory of its steps, and the last bound statement.
#[derive(Drop)]
pub struct Desk<'a> {
    pub(crate) book: Book<'a>,
    pub(crate) work: Work<'a>,
    pub(crate) bound: Bound,
}

// Prints a refusal.
pub(crate) fn tell_refused(
    out: &mut Vec<u8>,
    step: Step,
    fault: CallFault,
    allowance: u32,
) -> Result<bool, Trouble> {
    steps::refused(out, step, fault.told(), allowance)?;
    Ok(true)
}

impl<'a> Desk<'a> {
    // No statement is bound.
    pub fn new(book: Book<'a>, work: Work<'a>, alloc: Global) -> Desk<'a> {
        Desk {
            book,
            work,
            bound: Bound::nothing(alloc),
        }
    }

    fn fill(&mut self, session: &mut Session<'_>, oids: &[u32]) -> Result<u8, CallFault>
        ensures { AlikeCounted (run_of session.old) (run_of session.new) }
    {
        let book = &mut self.book;
        let work = &mut self.work;
        let catalogs = &mut session.catalogs;
        match catalogs.in_use() {
            InUse::Rows => filling::fill(book, &mut catalogs.rows, work, oids),
            InUse::Shelf => filling::fill(book, &mut catalogs.shelf, work, oids),
        }
    }

    // `fill OID..`
    pub(crate) fn answer_fill(
        &mut self,
        session: &mut Session<'_>,
        rest: &[u8],
        out: &mut Vec<u8>,
    ) -> Result<bool, Trouble>
        ensures { AlikeCounted (run_of session.old) (run_of session.new) }
    {
        let line = FillLine::read(rest, *out.allocator())?;
        let filled = self.fill(session, line.oids.as_slice());
        let allowance = session.allowance();
        match filled {
            Ok(rounds) => {
                steps::filled(out, rounds, allowance)?;
                Ok(false)
            }
            Err(fault) => tell_refused(out, Step::Fill, fault, allowance),
        }
    }

    fn resolve(
        &mut self,
        session: &mut Session<'_>,
        line: &ResolveLine,
        oids: &mut [u32],
    ) -> Result<u8, CallFault>
        ensures { AlikeCounted (run_of session.old) (run_of session.new) }
    {
        let book = &mut self.book;
        let work = &mut self.work;
        let host = line.host.as_slice();
        let entries = line.entries.as_slice();
        let catalogs = &mut session.catalogs;
        match catalogs.in_use() {
            InUse::Rows => {
                resolving::resolve(book, &mut catalogs.rows, work, host, entries, oids)
            }
            InUse::Shelf => {
                resolving::resolve(book, &mut catalogs.shelf, work, host, entries, oids)
            }
        }
    }

    // `resolve [out=N] ENTRY..`
    pub(crate) fn answer_resolve(
        &mut self,
        session: &mut Session<'_>,
        rest: &[u8],
        out: &mut Vec<u8>,
    ) -> Result<bool, Trouble>
        ensures { AlikeCounted (run_of session.old) (run_of session.new) }
    {
        let alloc = *out.allocator();
        let line = ResolveLine::read(rest, alloc)?;
        let count = line.entries.len();
        let mut oids = vec![in alloc; 0; buffer_slots(line.slots, count)]?;
        let resolved = self.resolve(session, &line, oids.as_mut_slice());
        let allowance = session.allowance();
        match resolved {
            Ok(rounds) => {
                oids.truncate(count);
                steps::resolved(out, rounds, allowance, oids.as_slice())?;
                Ok(false)
            }
            Err(fault) => tell_refused(out, Step::Resolve, fault, allowance),
        }
    }

    // `describe OID`
    pub(crate) fn answer_describe(&self, rest: &[u8], out: &mut Vec<u8>) -> Result<bool, Trouble> {
        let oid = read_oid(only_word(rest)?)?;
        tree::describe(out, &self.book, describing::describe(&self.book, oid))?;
        Ok(false)
    }

    // `element-of OID`
    pub(crate) fn answer_element_of(
        &self,
        rest: &[u8],
        out: &mut Vec<u8>,
    ) -> Result<bool, Trouble> {
        let oid = read_oid(only_word(rest)?)?;
        let element = match describing::describe(&self.book, oid) {
            Some(settled) => self.book.element(settled),
            None => None,
        };
        types::element_of(out, &self.book, element)?;
        Ok(false)
    }

    // `ordinal NAME`
    pub(crate) fn answer_ordinal(
        &mut self,
        rest: &[u8],
        out: &mut Vec<u8>,
    ) -> Result<bool, Trouble> {
        let ordinal = self.bound.ordinal(rest)?;
        steps::ordinal(out, ordinal)?;
        Ok(false)
    }
}
