// The kept list: whether it rises, where a number stands in it, and which item is not in it.
// A list that is known to rise gets no type of its own: 24 is told before anything is known of it, so the type would be made in `check` alone, and
// taken apart in `write`.
ghost use Rattle.std.specs.Prelude.{◌≡◌, true, map, length};
ghost use Rattle.rules.specs.Lists.{mem, rising, place};
ghost use Rattle.rules.specs.Renumber.{not_kept};
ghost use Rattle.renumbering.specs.Parts.{as_option, place_below};

use rules::number::Item;
use words::numeral::Numeral;

// Whether each number is above the one before it.
pub fn is_rising<N: Numeral>(kept: &[N]) -> bool
    ensures { result ≡ rising (map N.value kept.now) }
{
    kept.is_sorted_by(|a, b| a.number() < b.number())
}

// The place of item i in the kept list, if that rises and i is there.
pub fn find<N: Numeral>(kept: &[N], i: Item) -> Option<usize>
    ensures { rising (map N.value kept.now) ≡ true → as_option result ≡ place_below (place (map N.value kept.now) i.0) (length kept.now) }
{
    kept.binary_search_by_key(&i.0, |n| n.number()).ok()
}

// Whether item i is in the kept list, if that rises.
fn is_kept<N: Numeral>(kept: &[N], i: Item) -> bool
    ensures { rising (map N.value kept.now) ≡ true → result ≡ mem i.0 (map N.value kept.now) }
{
    find(kept, i).is_some()
}

// The place of the first item that is not in the kept list, if that rises.
pub fn not_kept<N: Numeral>(kept: &[N], items: &[N]) -> Option<usize>
    ensures { rising (map N.value kept.now) ≡ true → as_option result ≡ not_kept (map N.value kept.now) 0 (map N.value items.now) }
{
    items
        .iter()
        .position(|item| !is_kept(kept, Item::from(item.number())))
}
