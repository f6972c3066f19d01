// Whole lives of computed calls.

ghost use Rattle.life.specs.Run.{PerformLaw, RoundsLaw, RunLaw};

// Any history of calls, each performed as computed or turned away before any round, on a catalog that keeps its laws and only grows
// between them, is a life, and so its law holds; and each count of type rounds that is told, by a refusal too, is the last round in
// which anything stood. Nothing is assumed about counts, reads or books.
pub fn performing_stands()
    ensures lives { PerformLaw }
    ensures rounds { RoundsLaw }
    ensures run { RunLaw }
{}
