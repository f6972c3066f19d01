// What kind of line it is, by its first word.
ghost use Rattle.std.specs.Prelude.{◌≡◌};
ghost use Rattle.lines.specs.Verbs.{step_read, verb_read};

use transcript::answers::Reason;

#[derive(Clone, Copy, PartialEq, Eq, Debug)]
pub enum Verb {
    Use,
    Allowance,
    Row,
    Name,
    Column,
    Element,
    Builtin,
    BuiltinName,
}

// Of a line that makes a book, carries out a step on it, or asks it.
#[derive(Clone, Copy, PartialEq, Eq, Debug)]
pub enum StepVerb {
    Book,
    Fill,
    Resolve,
    Bind,
    Describe,
    Ordinal,
    ElementOf,
}

pub fn read_verb(word: &[u8]) -> Result<Verb, Reason>
    ensures { result ≡ verb_read word.now }
{
    match word {
        b"use" => Ok(Verb::Use),
        b"allowance" => Ok(Verb::Allowance),
        b"row" => Ok(Verb::Row),
        b"name" => Ok(Verb::Name),
        b"column" => Ok(Verb::Column),
        b"element" => Ok(Verb::Element),
        b"builtin" => Ok(Verb::Builtin),
        b"builtin-name" => Ok(Verb::BuiltinName),
        _ => Err(Reason::NoSuchLine),
    }
}

pub fn read_step(word: &[u8]) -> Option<StepVerb>
    ensures { result ≡ step_read word.now }
{
    match word {
        b"book" => Some(StepVerb::Book),
        b"fill" => Some(StepVerb::Fill),
        b"resolve" => Some(StepVerb::Resolve),
        b"bind" => Some(StepVerb::Bind),
        b"describe" => Some(StepVerb::Describe),
        b"ordinal" => Some(StepVerb::Ordinal),
        b"element-of" => Some(StepVerb::ElementOf),
        _ => None,
    }
}
