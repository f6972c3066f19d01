// What a host asks, before any round.

ghost use Rattle.life.specs.HostCalls.{AskedLaw, AskedLifeLaw, EarlyLaw};

// Refusals 1 to 3, by number and place, are where the entries of a call say so: the first of its list behind 256, the first without
// a slot of its answer buffer, the first with a name that may not be; all of one before the next, over the parameters and then the
// fields. What an asked call does is a call performed or one turned away, and so the law of a book's life holds of any calls that
// hosts ask.
pub fn host_calls_stand()
    ensures early { EarlyLaw }
    ensures asked { AskedLaw }
    ensures life { AskedLifeLaw }
{}
