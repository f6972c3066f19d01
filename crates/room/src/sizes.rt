// Which table is the first without room.

ghost use Rattle.room.specs.Sizes.{CapacityLaw, FirstFullLaw, SumLaw};

// The first table without room is told exactly, and nothing exactly where all that is added fits. What the tables hold once more is
// added is the sum of what they held and what is added. A capacity is the host's slots, or the limit if that is less.
pub fn sizes_stand()
    ensures first_full { FirstFullLaw }
    ensures sums { SumLaw }
    ensures capacities { CapacityLaw }
{}
