// Why a line has no answer.
ghost use Rattle.std.specs.Prelude.{◌≡◌, Some};
ghost use Rattle.std.specs.declared.alloc.AllocError.{AllocError};
ghost use Rattle.lines.specs.Trouble.{name_trouble, trouble_text};
ghost use Rattle.lines.specs.declared.trouble.Trouble.TheVariants.{NotUnderstood, OutOfMemory};

use script::names::NameFault;
use std::alloc::{AllocError, AllocFailed};
use std::error::Error;
use std::fmt;
use transcript::answers::Reason;

#[derive(Clone, Copy, PartialEq, Eq, Debug)]
pub enum Trouble {
    NotUnderstood(Reason),
    OutOfMemory(AllocError),
}

impl fmt::Display for Trouble {
    ghost output = { λ trouble. Some (trouble_text trouble) };

    fn fmt<W: fmt::Write>(&self, f: &mut fmt::Formatter<W>) -> fmt::Result {
        match self {
            Trouble::NotUnderstood(why) => write!(f, "not understood: {why}"),
            Trouble::OutOfMemory(_) => write!(f, "out of memory"),
        }
    }
}

impl Error for Trouble {}

impl From<Reason> for Trouble {
    ghost from_gives = { λ why r. r ≡ NotUnderstood why };

    fn from(why: Reason) -> Trouble {
        Trouble::NotUnderstood(why)
    }
}

impl From<NameFault> for Trouble {
    ghost from_gives = { λ fault r. r ≡ name_trouble fault };

    fn from(fault: NameFault) -> Trouble {
        match fault {
            NameFault::NotAName => Trouble::NotUnderstood(Reason::NotAName),
            NameFault::OutOfMemory(e) => Trouble::OutOfMemory(e),
        }
    }
}

impl From<AllocError> for Trouble {
    ghost from_gives = { λ e r. r ≡ OutOfMemory e };

    fn from(e: AllocError) -> Trouble {
        Trouble::OutOfMemory(e)
    }
}

impl<T: Drop> From<AllocFailed<T>> for Trouble {
    ghost from_gives = { λ e r. (a : AllocError) × (r ≡ OutOfMemory a) };

    fn from(e: AllocFailed<T>) -> Trouble {
        Trouble::OutOfMemory(AllocError::from(e))
    }
}
