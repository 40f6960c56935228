// What stops the rounds.
ghost use Rattle.std.specs.Prelude.{◌≡◌, ℕ};
ghost use Rattle.links.specs.Ending.{ending};
ghost use Rattle.preproc.specs.Stopping.{stopping};

use links::emptied::Emptied;
use rules::answer::Cause;
use rules::number::Item;

// A primary item that is left in no option, and why.
#[derive(Clone, Copy, Debug, PartialEq, Eq)]
pub struct Stop {
    pub item: Item,
    pub cause: Cause,
}

// The cause of what a deletion or a removal empties.
pub fn because(ended: Result<(), Emptied>, cause: Cause) -> Result<(), Stop>
    ensures { (z : ℕ) → ended ≡ ending z → result ≡ stopping z cause }
{
    ended.map_err(|emptied| Stop {
        item: emptied.item,
        cause,
    })
}
