// Theorems on the mappings held, each a function whose contract is the theorem.
ghost use Rattle.mappings.specs.Laws.{CountsFollow, HeldOnce, NeverFull, RoomForOneMore};

// A name in a table is held once, and at most 512 are held; so which names there are tells how many.
pub fn names_are_held_once()
    ensures once { HeldOnce }
    ensures counts { CountsFollow }
{}

// Where the operations that are held stand at places of their own, and one place is left, one more can be held.
pub fn room_for_one_more()
    ensures room { RoomForOneMore }
    ensures never_full { NeverFull }
{}
