// The book that a step leaves, and why leaving it so is a step of any life.

ghost use Rattle.life.specs.Keep.{KeepingLaw, LeavingLaw};
ghost use Rattle.life.specs.Settle.{PassesLaw};

// A call that read exactly what stands, and tells the last round wherever it tells type rounds, makes a life longer by leaving
// the book that is computed from what it read; a refusal that keeps nothing, by leaving the book as it was. As many passes as rows
// settle all that can be settled, and a pass that changes nothing may be the last.
pub fn keeping_stands()
    ensures keeping { KeepingLaw }
    ensures leaving { LeavingLaw }
    ensures passes { PassesLaw }
{}
