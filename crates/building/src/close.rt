// The columns' last links, when every option is laid out.
ghost use Rattle.std.specs.Prelude.{◌≡◌, ℕ, ◌+◌, ◌<◌, length};
ghost use Rattle.rules.specs.Bounds.{node_bound};
ghost use Rattle.links.specs.Column.{at};
ghost use Rattle.links.specs.Nodes.{SameNodes};
ghost use Rattle.building.specs.Laid.{closing};

use links::nodes::Nodes;

// The way down from the last node of each column, to its header.
pub fn close_columns(nodes: &mut Nodes)
    requires { (nodes.old.shape.n < node_bound) × (nodes.old.shape.n < length nodes.old.up.now) × ((i : ℕ) → i < nodes.old.shape.n → at nodes.old.up.now (i + 1) < length nodes.old.down.now) }
    ensures nodes { SameNodes nodes.old nodes.new }
    ensures heads { nodes.new.heads.now ≡ nodes.old.heads.now }
    ensures up { nodes.new.up.now ≡ nodes.old.up.now }
    ensures down { nodes.new.down.now ≡ closing nodes.old.shape.n nodes.old.up.now nodes.old.down.now }
{
    // half open: tried as `1..=nodes.shape.n`, the end of the loop does not prove where there is no item
    for c in 1..nodes.shape.n + 1 {
        let last = nodes.above(c);
        nodes.set_below(last, c);
    }
}
