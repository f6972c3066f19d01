// What a step came to.
use anyhow::ensure;
use binding::whole::Rounds;
use catalog::faults::{Layer, Told};
use faults::call::CallFault;
use std::fmt::Debug;

#[derive(Clone, Copy, PartialEq, Eq, Debug)]
pub enum Outcome {
    // The rounds of types, and of columns.
    Accepted(u8, u8),
    Refused(Told),
}

impl From<Result<u8, CallFault>> for Outcome {
    fn from(told: Result<u8, CallFault>) -> Outcome {
        match told {
            Ok(count) => Outcome::Accepted(count, 0),
            Err(fault) => Outcome::Refused(fault.told()),
        }
    }
}

impl From<Result<Rounds, CallFault>> for Outcome {
    fn from(told: Result<Rounds, CallFault>) -> Outcome {
        match told {
            Ok(rounds) => Outcome::Accepted(rounds.types, rounds.columns),
            Err(fault) => Outcome::Refused(fault.told()),
        }
    }
}

pub fn refused(number: u8, place: u32, layer: Layer, rounds: u8) -> Outcome {
    Outcome::Refused(Told {
        number,
        place,
        layer,
        rounds,
    })
}

pub fn must<T: PartialEq + Debug + Copy>(what: &str, is: T, must_be: T) -> anyhow::Result<()> {
    ensure!(is == must_be, "{what}: {is:?}, and must be {must_be:?}");
    Ok(())
}
