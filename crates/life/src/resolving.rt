// A Resolve, computed.

ghost use Rattle.life.specs.Reading.{ReadingLaw};
ghost use Rattle.life.specs.Resolve.{EntryLaw, ResolveLaw, ResolveNineLaw, TenLaw, WrittenLaw};
ghost use Rattle.life.specs.RoundOne.{ResolveEndsLaw, ResolveStopsLaw, RoundOneLaw};

// Round 1 asks in full for the rows of the OIDs that stand in it, for their typarray alone for those of the known elements whose
// array the book does not hold, and for none twice. The rounds pass refusals 4 to 7 exactly where they are orderly, and tell the
// last round; where they stop, they do so at the first offence. A loop that asks one question after the other comes to the same.
pub fn resolve_rounds_stand()
    ensures round_one { RoundOneLaw }
    ensures reading { ReadingLaw }
    ensures ends { ResolveEndsLaw }
    ensures stops { ResolveStopsLaw }
{}

// A Resolve, computed by its rounds, the passes and refusals 8 to 10, is one more step of any life. The OID computed for an entry
// is the entry's, and an accepted Resolve writes one for each. It is refused by 9 exactly where an entry has a requested OID with a
// row and no unfolding, and else by 10 exactly where an entry has no OID, and then at the first.
pub fn resolving_stands()
    ensures step { ResolveLaw }
    ensures entry { EntryLaw }
    ensures written { WrittenLaw }
    ensures nine { ResolveNineLaw }
    ensures ten { TenLaw }
{}
