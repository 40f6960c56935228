// The ten lists that a call is lent, as long as the figures ask for; before a call they hold a pattern.
use rules::problem::Problem;

// What the working lists hold.
pub(crate) const WORK: u32 = 70007;

pub(crate) const SIGNED_WORK: i32 = WORK as i32;

// What a list of a result holds, also behind its front after a call.
pub(crate) const PATTERN: u32 = 90009;

// The working lists.
#[derive(Drop)]
pub(crate) struct Room {
    pub heads: [i32; Problem::NODES],
    pub up: [u32; Problem::NODES],
    pub down: [u32; Problem::NODES],
    pub tints: [u32; Problem::NODES],
    pub marks: [u32; Problem::MARKS],
}

impl Room {
    pub(crate) fn new() -> Room {
        Room {
            heads: [SIGNED_WORK; Problem::NODES],
            up: [WORK; Problem::NODES],
            down: [WORK; Problem::NODES],
            tints: [WORK; Problem::NODES],
            marks: [WORK; Problem::MARKS],
        }
    }
}

// The lists of the result.
#[derive(Drop)]
pub(crate) struct Results {
    pub kept: [u32; Problem::ITEMS],
    pub ends: [u32; Problem::OPTIONS],
    pub numbers: [u32; Problem::OPTIONS],
    pub items: [u32; Problem::ENTRIES],
    pub colours: [u32; Problem::ENTRIES],
}

impl Results {
    pub(crate) fn new() -> Results {
        Results {
            kept: [PATTERN; Problem::ITEMS],
            ends: [PATTERN; Problem::OPTIONS],
            numbers: [PATTERN; Problem::OPTIONS],
            items: [PATTERN; Problem::ENTRIES],
            colours: [PATTERN; Problem::ENTRIES],
        }
    }
}
