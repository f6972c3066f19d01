// What becomes of an offer.
use catalog::faults::CatalogFault;
use std::fmt;

#[derive(Clone, Copy, PartialEq, Eq)]
pub enum Outcome {
    Accepted,
    // The number of the refusal, and its place.
    Refused(u8, u32),
}

impl From<Result<(), CatalogFault>> for Outcome {
    fn from(answer: Result<(), CatalogFault>) -> Outcome {
        match answer.map_err(|fault| fault.told()) {
            Ok(()) => Outcome::Accepted,
            Err(told) => Outcome::Refused(told.number, told.place),
        }
    }
}

impl fmt::Display for Outcome {
    fn fmt<W: fmt::Write>(&self, f: &mut fmt::Formatter<W>) -> fmt::Result {
        match self {
            Outcome::Accepted => f.write_str("ok"),
            Outcome::Refused(number, place) => write!(f, "refused {number} place {place}"),
        }
    }
}
