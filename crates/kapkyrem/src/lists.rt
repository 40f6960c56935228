// The call over lists of numbers, at the full figures, for callers that lend the working room.
ghost use Rattle.std.specs.Prelude.{◌≡◌};
ghost use Rattle.rules.specs.Outcome.{outcome_of};
ghost use Rattle.rules.specs.Rooms.{result_lists, room_lists};
ghost use Rattle.engine.specs.Call.{handed};
ghost use Rattle.kapkyrem.specs.Calls.{called, called_lists};

use crate::packed::pack_lists;
use calls::reduce;
use rules::lent::{Given, Results, Room};

// For C each list is a pointer and a count of numbers. include/kapkyrem.h describes every parameter. (It is long since each of C's sixteen
// parameters takes a line, here and in its struct.)
pub fn kapkyrem_reduce_lists(
    np: u32,
    ns: u32,
    cap: u32,
    items: &[u32],
    colours: &[u32],
    ends: &[u32],
    heads: &mut [i32],
    up: &mut [u32],
    down: &mut [u32],
    tints: &mut [u32],
    marks: &mut [u32],
    kept: &mut [u32],
    out_ends: &mut [u32],
    numbers: &mut [u32],
    out_items: &mut [u32],
    out_colours: &mut [u32],
) -> u64
    ensures { called result (room_lists heads.new up.new down.new tints.new marks.new) (result_lists kept.new out_ends.new numbers.new out_items.new out_colours.new)
        ≡ called_lists (outcome_of (handed np ns cap items.now colours.now ends.now (room_lists heads.old up.old down.old tints.old marks.old) (result_lists kept.old out_ends.old numbers.old out_items.old out_colours.old))) }
{
    let given = Given {
        np,
        ns,
        cap,
        items,
        colours,
        ends,
    };
    let mut room = Room {
        heads,
        up,
        down,
        tints,
        marks,
    };
    let mut results = Results {
        kept,
        ends: out_ends,
        numbers,
        items: out_items,
        colours: out_colours,
    };
    pack_lists(reduce(&given, &mut room, &mut results))
}
