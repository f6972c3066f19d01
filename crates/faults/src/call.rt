// What a call refuses: what its lists, its buffers and its names are refused for, an entry without an OID, or what its rounds refuse.
ghost use Rattle.std.specs.Prelude.{◌≡◌, Some};
ghost use Rattle.life.specs.Faults.{of_layer_call as call_layer};
ghost use Rattle.faults.specs.Faults.{call_refusal_of, call_text};
ghost use Rattle.faults.specs.declared.call.CallFault.TheVariants.{Columns as OfColumns, Fill as OfFill};

use crate::columns::ColumnsFault;
use crate::fill::FillFault;
use catalog::faults::{Layer, Told};
use std::error::Error;
use std::fmt;

// A place counts entries from 0, in a bind from the parameters on through the fields.
#[derive(Clone, Copy, PartialEq, Eq, Debug)]
pub enum CallFault {
    // A list goes on here behind its 256th entry.
    TooLong { place: u32 },
    // This entry, the first of them, has no slot in the answer buffer of its list.
    NoSlot { place: u32 },
    // The name of this entry has a wrong length or lies outside the host text.
    BadName { place: u32 },
    // After these rounds the entry has no OID.
    NoOid { place: u32, rounds: u8 },
    Fill(FillFault),
    Columns(ColumnsFault),
}

impl From<FillFault> for CallFault {
    ghost from_gives = { λ fault r. r ≡ OfFill fault };

    fn from(fault: FillFault) -> CallFault {
        CallFault::Fill(fault)
    }
}

impl From<ColumnsFault> for CallFault {
    ghost from_gives = { λ fault r. r ≡ OfColumns fault };

    fn from(fault: ColumnsFault) -> CallFault {
        CallFault::Columns(fault)
    }
}

impl CallFault {
    pub fn told(&self) -> Told
        ensures { result ≡ call_refusal_of self.now }
    {
        match *self {
            CallFault::TooLong { place } => of_layer_call(1, place, 0),
            CallFault::NoSlot { place } => of_layer_call(2, place, 0),
            CallFault::BadName { place } => of_layer_call(3, place, 0),
            CallFault::NoOid { place, rounds } => of_layer_call(10, place, rounds),
            CallFault::Fill(fault) => fault.told(),
            CallFault::Columns(fault) => fault.told(),
        }
    }
}

impl fmt::Display for CallFault {
    ghost output = { λ fault. Some (call_text fault) };

    fn fmt<W: fmt::Write>(&self, f: &mut fmt::Formatter<W>) -> fmt::Result {
        match self {
            CallFault::TooLong { place } => write!(f, "the list is too long: {place}"),
            CallFault::NoSlot { place } => write!(f, "no slot for the answer to entry {place}"),
            CallFault::BadName { place } => write!(f, "the name of entry {place} is refused"),
            CallFault::NoOid { place, rounds: _ } => write!(f, "entry {place} has no OID"),
            CallFault::Fill(fault) => write!(f, "{fault}"),
            CallFault::Columns(fault) => write!(f, "{fault}"),
        }
    }
}

impl Error for CallFault {}

fn of_layer_call(number: u8, place: u32, rounds: u8) -> Told
    ensures { result ≡ call_layer number place rounds }
{
    Told {
        number,
        place,
        layer: Layer::Call,
        rounds,
    }
}
