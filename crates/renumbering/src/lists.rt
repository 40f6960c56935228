// The renumberings over lists of numbers.
ghost use Rattle.std.specs.Prelude.{◌≡◌};
ghost use Rattle.rules.specs.Renumber.{sd as sd_of, compact_outcome, crate_outcome};
ghost use Rattle.renumbering.specs.Outcome.{outcome};
ghost use Rattle.renumbering.specs.Parts.{Renumberable};

use crate::answer::Unnumbered;
use crate::checks::check;
use crate::write::write;
use rules::number::Item;

// By how much the crate's numbers of secondaries are less (`sd` in p.rs `get_options`): first kept secondary minus last kept primary minus 1.
fn sd(kept: &[u32], primaries: usize) -> u32
    requires { Renumberable kept.now primaries }
    ensures { result ≡ sd_of kept.now primaries }
{
    if primaries < kept.len() {
        kept[primaries] - kept[primaries - 1] - 1
    } else {
        0
    }
}

// Compact numbers: each item's place in the kept list.
pub fn compact(
    kept: &[u32],
    primaries: u32,
    items: &[u32],
    out: &mut [u32],
) -> Result<(), Unnumbered>
    ensures { outcome result out.new ≡ compact_outcome kept.now primaries items.now out.old }
{
    check(kept, primaries, items, out.len())?;
    write(kept, items, &mut *out, |place, _| Item::from(place));
    Ok(())
}

// The crate's numbers: primaries as they are, secondaries less sd. A secondary is at least the first one kept, which is above sd.
pub fn crate_numbers(
    kept: &[u32],
    primaries: u32,
    items: &[u32],
    out: &mut [u32],
) -> Result<(), Unnumbered>
    ensures { outcome result out.new ≡ crate_outcome kept.now primaries items.now out.old }
{
    check(kept, primaries, items, out.len())?;
    let sd = sd(kept, primaries as usize);
    write(kept, items, &mut *out, |place, item| {
        if place < primaries {
            item
        } else {
            Item::from(item.0 - sd)
        }
    });
    Ok(())
}
