// The desk's call, over lists of bytes, four to a number, the lowest first.
ghost use Rattle.std.specs.Prelude.{◌≡◌};
ghost use Rattle.rules.specs.Rooms.{result_lists};
ghost use Rattle.desk_call.specs.Desk.{desk_outcome};
ghost use Rattle.kapkyrem.specs.Calls.{called_desk, called_bytes};

use crate::packed::pack_desk;
use desk_call::reduce::reduce;
use rules::lent::{Given, Results};

// For C each list is a pointer and a count of bytes. include/kapkyrem.h describes every parameter.
pub fn kapkyrem_reduce(
    np: u32,
    ns: u32,
    cap: u32,
    items: &[u8],
    colours: &[u8],
    ends: &[u8],
    kept: &mut [u8],
    out_ends: &mut [u8],
    numbers: &mut [u8],
    out_items: &mut [u8],
    out_colours: &mut [u8],
) -> u64
    ensures { called_desk result (result_lists kept.new out_ends.new numbers.new out_items.new out_colours.new)
        ≡ called_bytes (desk_outcome np ns cap items.now colours.now ends.now (result_lists kept.old out_ends.old numbers.old out_items.old out_colours.old)) }
{
    let given = Given {
        np,
        ns,
        cap,
        items,
        colours,
        ends,
    };
    let mut results = Results {
        kept,
        ends: out_ends,
        numbers,
        items: out_items,
        colours: out_colours,
    };
    pack_desk(reduce(&given, &mut results))
}
