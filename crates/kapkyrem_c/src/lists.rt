// The call over lists of numbers, at the full figures, for callers that lend the working room.
ghost use Rattle.std.specs.Prelude.{◌≡◌};
ghost use Rattle.rules.specs.Outcome.{outcome_of};
ghost use Rattle.rules.specs.Rooms.{result_lists, room_lists};
ghost use Rattle.engine.specs.Call.{handed};
ghost use Rattle.kapkyrem.specs.Calls.{called, called_lists};

// For C each list is a pointer and a count of numbers. include/kapkyrem.h describes every parameter.
#[unsafe(no_mangle)]
pub extern "C" fn kapkyrem_reduce_lists(
    np: u32,
    ns: u32,
    cap: u32,
    items: &[u32],
    colours: &[u32],
    ends: &[u32],
    heads: &mut [i32],
    up: &mut [u32],
    down: &mut [u32],
    tints: &mut [u32],
    marks: &mut [u32],
    kept: &mut [u32],
    out_ends: &mut [u32],
    numbers: &mut [u32],
    out_items: &mut [u32],
    out_colours: &mut [u32],
) -> u64
    ensures { called result (room_lists heads.new up.new down.new tints.new marks.new) (result_lists kept.new out_ends.new numbers.new out_items.new out_colours.new)
        ≡ called_lists (outcome_of (handed np ns cap items.now colours.now ends.now (room_lists heads.old up.old down.old tints.old marks.old) (result_lists kept.old out_ends.old numbers.old out_items.old out_colours.old))) }
{
    kapkyrem::lists::kapkyrem_reduce_lists(
        np,
        ns,
        cap,
        items,
        colours,
        ends,
        &mut *heads,
        &mut *up,
        &mut *down,
        &mut *tints,
        &mut *marks,
        &mut *kept,
        &mut *out_ends,
        &mut *numbers,
        &mut *out_items,
        &mut *out_colours,
    )
}
