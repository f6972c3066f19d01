// What a host is told of a refused call.

ghost use Rattle.life.specs.Faults.{FaultLaw};
ghost use Rattle.life.specs.Told.{ToldLaw};

// Whatever a host asks, it is told a number of 1 to 10 that this call may be refused by, with the layer, the place and the rounds
// that the table of refusals has for it. Each layer has faults of its own, an upper one carries the lower one whole, and the fault of a
// refusal tells just that.
pub fn telling_stands()
    ensures told { ToldLaw }
    ensures fault { FaultLaw }
{}
