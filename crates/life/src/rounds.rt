// What stands in which round, and what is computed of it.

ghost use Rattle.life.specs.Stops.{EndsLaw, QueueLaw, StandingLaw, StopsLaw};

// The lists that the rounds compute are what stands, in the order in which rows are read; a queue comes to the same. The rounds
// pass refusals 4 to 7 exactly where they are orderly, and tell the last round; where they stop, they do so at the first offence.
pub fn rounds_stand()
    ensures standing { StandingLaw }
    ensures queue { QueueLaw }
    ensures ends { EndsLaw }
    ensures stops { StopsLaw }
{}
