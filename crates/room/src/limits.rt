// Lives of a book within the capacities of its tables.

ghost use Rattle.room.specs.Asked.{AskedRoomLaw};
ghost use Rattle.room.specs.Order.{OrderLaw};
ghost use Rattle.room.specs.Room.{ColumnsPlaceLaw, EightLaw, RoomLaw};

// Any history of calls on tables of any capacities, each performed as computed with what it adds counted, is a life, and so its law
// holds; the tables never hold more than their capacities. A call is refused by 8 exactly where its rounds are walked and a table
// lacks room, and then the first such is told; its column round, exactly where that came about and the columns found do not fit.
// All that holds of any calls that hosts ask. No outcome depends on the order in which the tables hold what they hold.
pub fn limited_lives_stand()
    ensures lives { RoomLaw }
    ensures eight { EightLaw }
    ensures columns_place { ColumnsPlaceLaw }
    ensures asked { AskedRoomLaw }
    ensures order { OrderLaw }
{}
