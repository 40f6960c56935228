// Why a renumbering call gives no numbers.
ghost use Rattle.std.specs.Prelude.{◌≡◌};
ghost use Rattle.renumbering.specs.Outcome.{refused};

// A refusal, as an enum and no record of a number and a place: a place is a usize here, since a list of items may be longer than a u32 counts.
#[derive(Clone, Copy, Debug, PartialEq, Eq)]
pub enum Unnumbered {
    // 14: a byte list's length isn't a multiple of four; only where lists are lists of bytes
    Ragged,
    // 24: the kept list isn't strictly rising, or the count of primaries is 0 or above its length
    BadKept,
    // 18: the outcome list is shorter than the item list
    ShortOutcome,
    // 25: the first item that isn't in the kept list
    NotKept { place: usize },
}

impl Unnumbered {
    // The number that document 01 gives it.
    pub fn number(self) -> u32
        ensures { result ≡ (refused self).number }
    {
        match self {
            Unnumbered::Ragged => 14,
            Unnumbered::BadKept => 24,
            Unnumbered::ShortOutcome => 18,
            Unnumbered::NotKept { place: _ } => 25,
        }
    }

    // The place that goes with it; document 01 gives 0 where no item is at fault.
    pub fn place(self) -> usize
        ensures { result ≡ (refused self).place }
    {
        match self {
            Unnumbered::NotKept { place } => place,
            _ => 0,
        }
    }
}
