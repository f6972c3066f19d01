// Describe: what the book knows of an OID.
ghost use Rattle.std.specs.Prelude.{◌≡◌, ◌∷◌, List, Some};
ghost use Rattle.std.specs.Option.{option_map};
ghost use Rattle.book.specs.Book.{held_of};
ghost use Rattle.book.specs.Held.{book_held};
ghost use Rattle.book.specs.Lived.{HasLived, LawHolds};
ghost use Rattle.book.specs.Settled.{settled_told, settled_tree, tree_told};
ghost use Rattle.catalog.specs.Catalog.{Catalog, Grows, Laws};
ghost use Rattle.life.specs.Calls.{describe as describe_call};
ghost use Rattle.life.specs.Keep.{call_event};
ghost use Rattle.life.specs.Steps.{Event, accepted, answer};

use book::settled::Settled;
use book::tables::Book;
use type_info::oid::Oid;

// The settled type of an OID: the built-in type, or else the one that the book describes. Of every catalog that the book may have met
// it is a step of the book's life.
pub fn describe(book: &Book<'_>, oid: Oid) -> Option<Settled>
    ensures tree { option_map (settled_tree (held_of book.now)) result
        ≡ option_map (λ t. Some t) (answer (book_held (held_of book.now)) oid.0) }
    ensures told { option_map (settled_told (held_of book.now)) result
        ≡ option_map tree_told (answer (book_held (held_of book.now)) oid.0) }
    ensures lives { (h : List Event) → (d c : Catalog) → Laws c → HasLived h d (held_of book.now) → Grows d c →
        LawHolds (call_event c (describe_call oid.0) (accepted 0 0) ∷ h) c (held_of book.now) }
{
    book.describe(oid)
}
