// The numbers of the items, written to a list.
ghost use Rattle.std.specs.Prelude.{◌≡◌, ℕ, true, map, ◌*◌, ◌≤◌, length};
ghost use Rattle.rules.specs.Lists.{rising, each, written};
ghost use Rattle.renumbering.specs.Parts.{AllKept, AskedOfEach, Numbers};

use crate::kept::find;
use rules::number::Item;
use words::cell::Cell;
use words::numeral::Numeral;

// Writes the items' numbers to the front of `out`. What number a kept item has, `number` says, of its place in the kept list and the item.
pub fn write<N: Numeral, C: Cell, F: Fn(u32, Item) -> Item>(
    kept: &[N],
    items: &[N],
    out: &mut [C],
    number: F,
)
    requires rises { rising (map N.value kept.now) ≡ true }
    requires kept { AllKept (map N.value kept.now) (map N.value items.now) }
    requires room { C.width * length items.now ≤ length out.old }
    requires callable { AskedOfEach (map N.value kept.now) (F.pre number) }
    ensures { (f : ℕ → ℕ) → Numbers (map N.value kept.now) (F.post number) f → out.new ≡ written (each C.cells (map f (map N.value items.now))) out.old }
{
    // by place, as `Cell::put` writes: of the elements nothing is known once an `iter_mut` is over
    for (k, item) in items.iter().enumerate() {
        let i = Item::from(item.number());
        let place = find(kept, i).unwrap();
        C::put(&mut *out, k, number(place as u32, i).0);
    }
}
