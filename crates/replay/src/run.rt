// The call, in room for as many items as are taken, and for the entries and the options that the desk takes: no stored problem that passes the first
// checks has more.
use crate::agree::{Lists, agrees};
use rules::lent::{Given, Results, Room};
use rules::problem::Problem;

// The nodes of such a problem.
const NODES: usize = Problem::ITEMS + 2 + Problem::DESK_ENTRIES + Problem::DESK_OPTIONS;

// Whether the call gives the stored answer.
pub(crate) fn run(given: Given<u32>, stored: &[u32]) -> bool {
    let mut heads = [0i32; NODES];
    let mut up = [0u32; NODES];
    let mut down = [0u32; NODES];
    let mut tints = [0u32; NODES];
    let mut marks = [0u32; Problem::MARKS];
    let mut kept = [0u32; Problem::ITEMS];
    let mut ends = [0u32; Problem::DESK_OPTIONS];
    let mut numbers = [0u32; Problem::DESK_OPTIONS];
    let mut items = [0u32; Problem::DESK_ENTRIES];
    let mut colours = [0u32; Problem::DESK_ENTRIES];
    let mut room = Room {
        heads: &mut heads,
        up: &mut up,
        down: &mut down,
        tints: &mut tints,
        marks: &mut marks,
    };
    let mut results = Results {
        kept: &mut kept,
        ends: &mut ends,
        numbers: &mut numbers,
        items: &mut items,
        colours: &mut colours,
    };
    let answer = calls::reduce(&given, &mut room, &mut results);
    let lists = Lists {
        kept: &kept,
        ends: &ends,
        numbers: &numbers,
        items: &items,
        colours: &colours,
    };
    agrees(stored, answer, lists)
}
