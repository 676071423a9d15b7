// The reorder buffer's theorems: what every call keeps, what a drain is, how held bytes come out, that freed room is used again, and that no refusal is 0.
#![tactic(auto)]

ghost use Rattle.reorder_laws.specs.Keeps.{CallsKeep};
ghost use Rattle.reorder_laws.specs.Serves.{DrainsAreServes};
ghost use Rattle.reorder_laws.specs.Held.{BytesComeOut};
ghost use Rattle.reorder_laws.specs.Room.{RoomIsUsedAgain};
ghost use Rattle.reorder_laws.specs.RefusalNumbers.{RefusalsHaveNumbers};

// A session that isn't broken stays so under every call.
pub fn calls_keep()
    ensures { CallsKeep }
{}

// A drain with a budget of b is b serves.
pub fn drains_are_serves()
    ensures { DrainsAreServes }
{}

// A held packet's bytes come out as they went in.
pub fn bytes_come_out()
    ensures { BytesComeOut }
{}

// The position 32 after one that was given, or called missing, is free, and its packet is taken.
pub fn room_is_used_again()
    ensures { RoomIsUsedAgain }
{}

// No refusal is 0.
pub fn refusals_have_numbers()
    ensures { RefusalsHaveNumbers }
{}
