// An item and its column. Inside the walks an item is a column, the number of its header's node, since that is what the lists hold; what the walks answer
// names the item. The headers stand from node 1 on, and these two functions are where the one number becomes the other.
ghost use Rattle.std.specs.Prelude.{◌≡◌, ◌+◌, ◌<◌};
ghost use Rattle.rules.specs.Bounds.{node_bound};

use rules::number::Item;

pub fn column_of(item: Item) -> usize
    ensures { result ≡ item.0 + 1 }
{
    item.0 as usize + 1
}

pub fn item_of_column(c: usize) -> Item
    requires { (0 < c) × (c < node_bound) }
    ensures { result.0 + 1 ≡ c }
{
    Item((c - 1) as u32)
}
