// Settling by a test of links, in any order.

ghost use Rattle.life.specs.InTurn.{AnyOrderLaw, InTurnLaw};

// Rows read come to the same descriptors in whatever order they are settled, once nothing is left to settle. Where each is settled in
// its turn, a list of them tells what is described, and whether all links of a row are known tells whether it can be settled next: such
// a list grows at its end, and where no row read can follow, it has settled what the passes settle.
pub fn settling_stands()
    ensures any_order { AnyOrderLaw }
    ensures in_turn { InTurnLaw }
{}
