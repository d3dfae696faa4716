ghost use Rattle.plan_bounds.specs.RoomLaw.{PlansHaveRoom};
ghost use Rattle.plan_bounds.specs.RunLaw.{EntryMakes};

/// Running the entry of a judged file makes at most as many elements as a program may have operations.
pub fn plans_have_room()
    ensures { PlansHaveRoom }
{}

/// The plan of the entry of a judged file makes something of its inputs, over elements of any kind.
pub fn entry_makes<V>()
    ensures { EntryMakes V }
{}
