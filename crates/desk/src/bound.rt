// The bound statement that the lines ask about.
ghost use Rattle.std.specs.Prelude.{◌≡◌, ◌≤◌, length, map, take, vec_len, IfOk};
ghost use Rattle.std.specs.Option.{option_map};
ghost use Rattle.desk.specs.Bound.{ordinal_told};
ghost use Rattle.life.specs.Ordinal.{ordinal as ordinal_of};
ghost use Rattle.lines.specs.Reading.{Reads};
ghost use Rattle.requests.specs.declared.asked.FieldAsked.{FieldAsked};
ghost use Rattle.script.specs.Words.{words};

use keys::span::Span;
use lines::steps::read_ordinal;
use lines::trouble::Trouble;
use requests::asked::FieldAsked;
use requests::ordinals::ColumnNames;
use std::alloc::{AllocError, Global};
use type_info::oid::Ordinal;

// Twice as many slots as a statement has columns, so that look-ups stay short.
const SLOTS: usize = 512;

const MOST: usize = 256;

// The host text, and the names of the columns in it.
#[derive(Drop)]
pub struct Bound {
    host: Vec<u8>,
    names: Vec<Span>,
    ghost few: { vec_len names ≤ 256 },
}

fn names_of(alloc: Global, fields: &[FieldAsked]) -> Result<Vec<Span>, AllocError>
    ensures { IfOk result (λ names. names.items ≡ map (λ (f : FieldAsked). f.name) fields.now) }
{
    let mut names = Vec::new(alloc);
    for field in fields {
        names.push(field.name)?;
    }
    Ok(names)
}

impl Bound {
    // No column.
    pub fn nothing(alloc: Global) -> Bound {
        Bound {
            host: Vec::new(alloc),
            names: Vec::new(alloc),
        }
    }

    // The columns of these fields, of which a statement has at most 256.
    #[tactic(auto, using(std::proofs::lemmas::List::take_min))]
    pub fn new(host: Vec<u8>, fields: &[FieldAsked]) -> Result<Bound, AllocError>
        ensures host { IfOk result (λ bound. bound.host.items ≡ host.items) }
        ensures names { IfOk result (λ bound. bound.names.items ≡ map (λ (f : FieldAsked). f.name) (take 256 fields.now)) }
    {
        let names = names_of(*host.allocator(), &fields[..MOST.min(fields.len())])?;
        Ok(Bound { host, names })
    }

    // The last column of this name.
    fn find(&self, name: Span) -> Result<Option<Ordinal>, AllocError>
        ensures { IfOk result (λ found. option_map (λ o. o.0) found ≡ ordinal_of self.now.host.items self.now.names.items name) }
    {
        let mut slots = vec![in *self.host.allocator(); None; SLOTS]?;
        let columns = ColumnNames::new(
            self.host.as_slice(),
            self.names.as_slice(),
            slots.as_mut_slice(),
        );
        Ok(match columns {
            Some(columns) => columns.ordinal(name),
            None => None,
        })
    }

    // `ordinal NAME`: the last column of the name, which is laid behind the host text for as long as it is looked up.
    pub fn ordinal(&mut self, rest: &[u8]) -> Result<Option<Ordinal>, Trouble>
        ensures found { Reads (option_map (λ o. o.0)) (ordinal_told self.old.host.items self.old.names.items (words rest.now)) result }
        ensures host { self.new.host.items ≡ self.old.host.items }
        ensures names { self.new.names.items ≡ self.old.names.items }
    {
        let end = self.host.len();
        let found = self.look_up(rest);
        self.host.truncate(end);
        found
    }

    // The last column of the name, which is laid behind the host text.
    fn look_up(&mut self, rest: &[u8]) -> Result<Option<Ordinal>, Trouble>
        ensures found { Reads (option_map (λ o. o.0)) (ordinal_told self.old.host.items self.old.names.items (words rest.now)) result }
        ensures kept { take (length self.old.host.items) self.new.host.items ≡ self.old.host.items }
        ensures names { self.new.names.items ≡ self.old.names.items }
    {
        let name = read_ordinal(rest, &mut self.host)?;
        Ok(self.find(name)?)
    }
}
