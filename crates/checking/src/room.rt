// Checks 17 and 18, of the room that is lent.
ghost use Rattle.std.specs.Prelude.{◌≡◌, ◌+◌, ◌<◌};
ghost use Rattle.rules.specs.Bounds.{word_bound};
ghost use Rattle.rules.specs.Rooms.{Room as PaperRoom, Results as PaperResults};
ghost use Rattle.rules.specs.Checks.{short_room, short_results};
ghost use Rattle.rules.specs.Lent.{room_in, results_in};
ghost use Rattle.checking.specs.Lent.{Lent};

use rules::lent::{Results, Room};

// The lengths of the ten lists: the five of the working room, and the five of the result.
#[derive(Clone, Copy, PartialEq, Eq, Debug)]
pub struct Lengths {
    pub heads: usize,
    pub up: usize,
    pub down: usize,
    pub tints: usize,
    pub marks: usize,
    pub kept: usize,
    pub ends: usize,
    pub numbers: usize,
    pub items: usize,
    pub colours: usize,
}

impl Lengths {
    // Of the lists that a call is lent.
    pub fn of(room: &Room, results: &Results<u32>) -> Lengths
        ensures { Lent result (room_in room.now) (results_in results.now) }
    {
        Lengths {
            heads: room.heads.len(),
            up: room.up.len(),
            down: room.down.len(),
            tints: room.tints.len(),
            marks: room.marks.len(),
            kept: results.kept.len(),
            ends: results.ends.len(),
            numbers: results.numbers.len(),
            items: results.items.len(),
            colours: results.colours.len(),
        }
    }
}

// 17: a working list is too short for n items and these counts of entries and options.
pub fn short_room(n: usize, entries: usize, options: usize, lent: Lengths) -> bool
    requires { n + 2 + entries + options < word_bound }
    ensures { (room : PaperRoom) (results : PaperResults) → Lent lent room results → result ≡ short_room n entries options room }
{
    let size = n + 2 + entries + options;
    (lent.heads < size)
        | (lent.up < size)
        | (lent.down < size)
        | (lent.tints < size)
        | (lent.marks < n + 1)
}

// 18: a result list is.
pub fn short_results(n: usize, entries: usize, options: usize, lent: Lengths) -> bool
    ensures { (room : PaperRoom) (results : PaperResults) → Lent lent room results → result ≡ short_results n entries options results }
{
    (lent.kept < n)
        | (lent.ends < options)
        | (lent.numbers < options)
        | (lent.items < entries)
        | (lent.colours < entries)
}
