// What each kind of line does to the catalogs, and what is printed for it.
ghost use Rattle.std.specs.Prelude.{◌≡◌, MatchResult, is_err};
ghost use Rattle.script.specs.Words.{words};
ghost use Rattle.session.specs.Catalogs.{held_by};
ghost use Rattle.session.specs.Lines.{IsOutOfMemory, Replies, allowance_reply, column_reply, name_reply, outcome_told, reply, row_reply, use_reply};
ghost use Rattle.transcript.specs.Appends.{Behind};
ghost use Rattle.transcript.specs.Printed.{addition_text};

use crate::catalogs::Catalogs;
use crate::questions::{builtin, builtin_name, element};
use catalog::faults::CatalogFault;
use keys::kinds::Attribute;
use lines::additions::{ColumnLine, NameLine};
use lines::catalogs::{read_allowance, read_use};
use lines::row::RowLine;
use lines::trouble::Trouble;
use lines::verb::{Verb, read_verb};
use transcript::answers;
use transcript::answers::Addition;

// Prints the outcome of an addition, and tells whether it was refused.
fn tell_outcome(
    out: &mut Vec<u8>,
    what: Addition,
    outcome: Result<(), CatalogFault>,
) -> Result<bool, Trouble>
    ensures { MatchResult result (λ refused. (refused ≡ is_err outcome) × Behind out.old.items (addition_text what (outcome_told outcome)) out.new.items) IsOutOfMemory }
{
    answers::added(out, what, outcome.map_err(|fault| fault.told()))?;
    Ok(outcome.is_err())
}

impl<'a> Catalogs<'a> {
    // `use rows`, `use shelf`
    fn answer_use(&mut self, rest: &[u8], out: &mut Vec<u8>) -> Result<bool, Trouble>
        ensures { Replies (use_reply (held_by self.old) (words rest.now)) out.old.items out.new.items (held_by self.old) (held_by self.new) result }
    {
        let catalog = read_use(rest)?;
        self.choose(catalog);
        answers::in_use(out, catalog)?;
        Ok(false)
    }

    // `allowance N`
    fn answer_allowance(&mut self, rest: &[u8], out: &mut Vec<u8>) -> Result<bool, Trouble>
        ensures { Replies (allowance_reply (held_by self.old) (words rest.now)) out.old.items out.new.items (held_by self.old) (held_by self.new) result }
    {
        let rounds = read_allowance(rest)?;
        self.set_allowance(rounds);
        answers::allowance(out, rounds)?;
        Ok(false)
    }

    // `row OID PRETTY TYPTYPE TYPCATEGORY TYPELEM TYPBASETYPE RNGSUBTYPE TYPARRAY [labels NAME..] [attributes (NAME OID)..]`
    fn answer_row(&mut self, rest: &[u8], out: &mut Vec<u8>) -> Result<bool, Trouble>
        ensures { Replies (row_reply (held_by self.old) (words rest.now)) out.old.items out.new.items (held_by self.old) (held_by self.new) result }
    {
        let line = RowLine::read(rest, *out.allocator())?;
        let outcome = self.rows.add_row(line.host.as_slice(), line.offered());
        tell_outcome(out, Addition::Row, outcome)
    }

    // `name NAME OID`
    fn answer_name(&mut self, rest: &[u8], out: &mut Vec<u8>) -> Result<bool, Trouble>
        ensures { Replies (name_reply (held_by self.old) (words rest.now)) out.old.items out.new.items (held_by self.old) (held_by self.new) result }
    {
        let line = NameLine::read(rest, *out.allocator())?;
        let outcome = self
            .rows
            .add_name(line.host.as_slice(), line.name, line.oid);
        tell_outcome(out, Addition::Name, outcome)
    }

    // `column RELATION ATTRIBUTE TABLE COLUMN`
    fn answer_column(&mut self, rest: &[u8], out: &mut Vec<u8>) -> Result<bool, Trouble>
        ensures { Replies (column_reply (held_by self.old) (words rest.now)) out.old.items out.new.items (held_by self.old) (held_by self.new) result }
    {
        let line = ColumnLine::read(rest, *out.allocator())?;
        let at = Attribute {
            relation: line.relation,
            number: line.number,
        };
        let outcome = self
            .rows
            .add_column(line.host.as_slice(), at, line.table, line.name);
        tell_outcome(out, Addition::Column, outcome)
    }

    // Carries out a line, by its first word and what follows that, and tells whether it was a call that was refused.
    pub fn answer(&mut self, verb: &[u8], rest: &[u8], out: &mut Vec<u8>) -> Result<bool, Trouble>
        ensures { Replies (reply (held_by self.old) verb.now (words rest.now)) out.old.items out.new.items (held_by self.old) (held_by self.new) result }
    {
        match read_verb(verb)? {
            Verb::Use => return self.answer_use(rest, out),
            Verb::Allowance => return self.answer_allowance(rest, out),
            Verb::Row => return self.answer_row(rest, out),
            Verb::Name => return self.answer_name(rest, out),
            Verb::Column => return self.answer_column(rest, out),
            Verb::Element => element(rest, out)?,
            Verb::Builtin => builtin(rest, out)?,
            Verb::BuiltinName => builtin_name(rest, out)?,
        }
        Ok(false)
    }
}
