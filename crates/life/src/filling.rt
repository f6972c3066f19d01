// A Fill, computed.

ghost use Rattle.life.specs.Fill.{FillLaw, NineLaw, QuietLaw};

// A Fill, and any call in which nothing but OIDs stands, computed by the walk, the passes and refusals 8 and 9, is one more step of
// any life. It is refused by 9 exactly where a requested OID has a row and no unfolding, and then at the first.
pub fn filling_stands()
    ensures fill { FillLaw }
    ensures quiet { QuietLaw }
    ensures nine { NineLaw }
{}
