// The entries of one option, each at the end of its column.
ghost use Rattle.std.specs.Prelude.{◌≡◌, ◌+◌, ◌<◌, length, pos, slice_set};
ghost use Rattle.rules.specs.Bounds.{node_bound};
ghost use Rattle.links.specs.Head.{item_of, head, Growing};
ghost use Rattle.links.specs.Column.{at};
ghost use Rattle.links.specs.Nodes.{in_nodes, SameNodes};
ghost use Rattle.links.specs.Plan.{Plan};
ghost use Rattle.building.specs.Laid.{Open};
ghost use Rattle.building.specs.Build.{Filling};

use links::nodes::Nodes;

// Puts node x, an entry of this colour, at the end of column c. The way down from x is left to be written: by the next entry of the
// column, or when there is no more (`close_columns`). Writing costs more here than all else, and so each link is written once.
pub fn append(nodes: &mut Nodes, tints: &mut [u32], x: usize, c: usize, tint: u32)
    requires c_bound { (c < node_bound) × (x < node_bound) × (at nodes.old.up.now c < node_bound) }
    requires growing { Growing nodes.old.heads.now c × (c < length nodes.old.up.now) × (at nodes.old.up.now c < length nodes.old.down.now) }
    requires x_in_bounds { (x < length nodes.old.heads.now) × (x < length nodes.old.up.now) × (x < length tints.old) }
    ensures nodes { SameNodes nodes.old nodes.new }
    ensures heads { nodes.new.heads.now ≡ slice_set (slice_set nodes.old.heads.now c (pos (item_of (head nodes.old.heads.now c) + 1))) x (pos c) }
    ensures up { nodes.new.up.now ≡ slice_set (slice_set nodes.old.up.now x (at nodes.old.up.now c)) c x }
    ensures down { nodes.new.down.now ≡ slice_set nodes.old.down.now (at nodes.old.up.now c) x }
    ensures tints { tints.new ≡ slice_set tints.old x tint }
{
    nodes.more(c);
    let last = nodes.above(c);
    nodes.set_above(x, last);
    nodes.set_below(last, x);
    nodes.set_above(c, x);
    nodes.set_head(x, c);
    tints[x] = tint;
}

// Lays out the entries of an option at the nodes behind boundary `edge`.
pub fn put_entries(
    nodes: &mut Nodes,
    tints: &mut [u32],
    edge: usize,
    items: &[u32],
    colours: &[u32],
)
    requires lengths { (length colours.now ≡ length items.now) × (edge + 1 < node_bound) }
    requires filling { (P : Plan) × in_nodes (Filling P edge items.now colours.now) nodes.old tints.old }
    ensures nodes { SameNodes nodes.old nodes.new }
    ensures lists { (P : Plan) → in_nodes (Filling P edge items.now colours.now) nodes.old tints.old
        → in_nodes (Open P 0 (edge + 1 + length items.now)) nodes.new tints.new }
{
    // x never wraps. As a sum that might, it stays a counter of its own, where the compiler would else keep six pointers in its place, more
    // than it has room for: slower by up to a twentieth.
    let mut x = (edge + 1) as u32;
    for (&item, &colour) in items.iter().zip(colours) {
        append(nodes, tints, x as usize, item as usize + 1, colour);
        x = x.wrapping_add(1);
    }
}
