// Whether a renumbering is refused.
ghost use Rattle.std.specs.Prelude.{◌≡◌, ℕ, List, map, length};
ghost use Rattle.rules.specs.Renumber.{renumber_refusal};
ghost use Rattle.renumbering.specs.Outcome.{refusal};

use crate::answer::Unnumbered;
use crate::kept::{is_rising, not_kept};
use words::numeral::Numeral;

// The refusals 24, 18 and 25, in this order. The outcome list has room for so many numbers.
pub fn check<N: Numeral>(
    kept: &[N],
    primaries: u32,
    items: &[N],
    room: usize,
) -> Result<(), Unnumbered>
    ensures { (out : List ℕ) → room ≡ length out → refusal result ≡ renumber_refusal (map N.value kept.now) primaries (map N.value items.now) out }
{
    if !is_rising(kept) || primaries == 0 || kept.len() < primaries as usize {
        return Err(Unnumbered::BadKept);
    }
    if room < items.len() {
        return Err(Unnumbered::ShortOutcome);
    }
    match not_kept(kept, items) {
        Some(place) => Err(Unnumbered::NotKept { place }),
        None => Ok(()),
    }
}
