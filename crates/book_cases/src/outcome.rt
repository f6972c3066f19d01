// What becomes of an offer.
use book::sizes::BookTable;

#[derive(Clone, Copy, PartialEq, Eq, Debug)]
pub enum Outcome {
    Added,
    // This table is the first without room for it.
    Full(BookTable),
    // There is room for it.
    Refused,
    // There was no room for it.
    AddedBeyond(BookTable),
}

impl Outcome {
    pub fn new(added: bool, full: Option<BookTable>) -> Outcome {
        match (added, full) {
            (true, None) => Outcome::Added,
            (true, Some(table)) => Outcome::AddedBeyond(table),
            (false, None) => Outcome::Refused,
            (false, Some(table)) => Outcome::Full(table),
        }
    }
}
