// The compact renumbering over byte lists, for the call through C: four bytes to a number, lowest first.
ghost use Rattle.std.specs.Prelude.{◌≡◌};
ghost use Rattle.renumbering.specs.Outcome.{outcome};
ghost use Rattle.renumbering.specs.Bytes.{compact_bytes_outcome};

use crate::answer::Unnumbered;
use crate::checks::check;
use crate::write::write;
use rules::number::Item;
use words::{any_ragged, count, fours};

// Compact numbers: each item's place in the kept list.
pub fn compact_bytes(
    kept: &[u8],
    primaries: u32,
    items: &[u8],
    out: &mut [u8],
) -> Result<(), Unnumbered>
    ensures { outcome result out.new ≡ compact_bytes_outcome kept.now primaries items.now out.old }
{
    if any_ragged(&[kept.len(), items.len(), out.len()]) {
        return Err(Unnumbered::Ragged);
    }
    let (kept, items) = (fours(kept), fours(items));
    check(kept, primaries, items, count(out))?;
    write(kept, items, &mut *out, |place, _| Item::from(place));
    Ok(())
}
