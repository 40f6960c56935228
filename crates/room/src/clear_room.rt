// The working lists at the end of a call.
ghost use Rattle.std.specs.Prelude.{◌≡◌};
ghost use Rattle.rules.specs.Lent.{SameRoom, room_in};
ghost use Rattle.rules.specs.Outcome.{cleared};

use crate::clear::clear;
use rules::lent::Room;

// Every number of the five lists is zero, to their ends.
pub fn clear_room(room: &mut Room)
    ensures lists { SameRoom room.old room.new }
    ensures cleared { room_in room.new ≡ cleared (room_in room.old) }
{
    clear(room.heads, 0);
    clear(room.up, 0);
    clear(room.down, 0);
    clear(room.tints, 0);
    clear(room.marks, 0);
}
