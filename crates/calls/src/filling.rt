// Fill, as a host calls it.
ghost use Rattle.std.specs.Prelude.{◌≡◌, [], ◌∷◌, IfErr, List, false};
ghost use Rattle.book.specs.Book.{held_of};
ghost use Rattle.book.specs.Lived.{HasLived, LawHolds};
ghost use Rattle.book.specs.Stands.{Stands};
ghost use Rattle.calls.specs.Endings.{Did, TellsOf, ending_of};
ghost use Rattle.catalog.specs.Catalog.{Catalog, Grows, Spent};
ghost use Rattle.life.specs.Calls.{fill as fill_call};
ghost use Rattle.life.specs.HostCalls.{host_fill};
ghost use Rattle.life.specs.Keep.{call_event};
ghost use Rattle.life.specs.Steps.{Event, keeps_finds, rounds_told};
ghost use Rattle.room.specs.Asked.{asked_within};
ghost use Rattle.room.specs.Tables.{Tables};

use crate::early::{carried, fault_of};
use crate::work::Work;
use book::tables::Book;
use catalog::questions::TypeCatalog;
use faults::call::CallFault;
use requests::early::fill_refused;
use resolve::filling;

// The fill, but that nothing is said of the life of the book.
fn fill_asked<C: TypeCatalog>(
    book: &mut Book<'_>,
    catalog: &mut C,
    work: &mut Work<'_>,
    oids: &[u32],
) -> Result<u8, CallFault>
    ensures did { (t : Tables) → Stands (held_of book.old) t →
        Did (C.meaning catalog.old) (held_of book.old) (held_of book.new) [] (host_fill oids.now) (ending_of result) t }
    ensures cost { Spent (rounds_told (ending_of result)) (C.meaning catalog.old) (C.meaning catalog.new) }
    ensures capacity { (held_of book.new).capacity ≡ (held_of book.old).capacity }
    ensures unkept { keeps_finds (ending_of result) ≡ false → held_of book.new ≡ held_of book.old }
{
    match fill_refused(oids) {
        Some(early) => Err(fault_of(early)),
        None => carried(filling::fill(book, catalog, &mut work.finds, oids)),
    }
}

// Fills the book with the types of these OIDs, and of all that they lead to, and tells how many rounds were opened.
pub fn fill<C: TypeCatalog>(
    book: &mut Book<'_>,
    catalog: &mut C,
    work: &mut Work<'_>,
    oids: &[u32],
) -> Result<u8, CallFault>
    ensures did { (t : Tables) → Stands (held_of book.old) t →
        Did (C.meaning catalog.old) (held_of book.old) (held_of book.new) [] (host_fill oids.now) (ending_of result) t }
    ensures layer { IfErr result (λ fault. (t : Tables) → Stands (held_of book.old) t →
        TellsOf (asked_within (held_of book.old).capacity [] (C.meaning catalog.old) t (host_fill oids.now)).ending fault) }
    ensures cost { Spent (rounds_told (ending_of result)) (C.meaning catalog.old) (C.meaning catalog.new) }
    ensures capacity { (held_of book.new).capacity ≡ (held_of book.old).capacity }
    ensures unkept { keeps_finds (ending_of result) ≡ false → held_of book.new ≡ held_of book.old }
    ensures lives { (h : List Event) → (d : Catalog) → HasLived h d (held_of book.old) → Grows d (C.meaning catalog.old) →
        LawHolds (call_event (C.meaning catalog.old) (fill_call oids.now) (ending_of result) ∷ h) (C.meaning catalog.new) (held_of book.new) }
{
    fill_asked(book, catalog, work, oids)
}
