// The lines that ask about built-in and declared types, and what is printed for them.
ghost use Rattle.script.specs.Words.{words};
ghost use Rattle.session.specs.Lines.{Prints, builtin_name_text, builtin_oid_text, element_of_entry_text};

use lines::entry::Entry;
use lines::trouble::Trouble;
use lines::word::{only_word, read_name, read_oid};
use transcript::answers;
use type_info::builtin::{by_name, by_oid};

// `builtin OID`
pub fn builtin(rest: &[u8], out: &mut Vec<u8>) -> Result<(), Trouble>
    ensures { Prints (builtin_oid_text (words rest.now)) out.old.items out.new.items result }
{
    let oid = read_oid(only_word(rest)?)?;
    answers::builtin(out, by_oid(oid))?;
    Ok(())
}

// `builtin-name NAME`
pub fn builtin_name(rest: &[u8], out: &mut Vec<u8>) -> Result<(), Trouble>
    ensures { Prints (builtin_name_text (words rest.now)) out.old.items out.new.items result }
{
    let name = read_name(only_word(rest)?, *out.allocator())?;
    answers::builtin(out, by_name(name.as_slice()))?;
    Ok(())
}

// `element ENTRY`
pub fn element(rest: &[u8], out: &mut Vec<u8>) -> Result<(), Trouble>
    ensures { Prints (element_of_entry_text (words rest.now)) out.old.items out.new.items result }
{
    let entry = Entry::read(only_word(rest)?, *out.allocator())?;
    answers::element(out, entry.declared().element())?;
    Ok(())
}
