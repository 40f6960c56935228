// One option: whether it holds a primary item, its entries, and the boundary behind them.
ghost use Rattle.std.specs.Prelude.{◌≡◌, ◌+◌, ◌-◌, ◌<◌, length, negsuc, slice_set};
ghost use Rattle.rules.specs.Bounds.{node_bound};
ghost use Rattle.links.specs.Nodes.{in_nodes, SameNodes};
ghost use Rattle.links.specs.Plan.{Plan};
ghost use Rattle.building.specs.Laid.{Open};
ghost use Rattle.building.specs.Build.{primary_in, Turn, behind};

use crate::entries::put_entries;
use links::nodes::Nodes;
use rules::number::Opt;

// Some item of an option is below np.
pub fn has_primary(items: &[u32], np: usize) -> bool
    ensures { result ≡ primary_in np items.now }
{
    items.iter().any(|&i| (i as usize) < np)
}

// The boundary `next` after option k, whose entries are those behind boundary `edge`.
pub fn put_spacer(nodes: &mut Nodes, edge: usize, next: usize, k: Opt)
    requires { (edge < next) × (next < node_bound) × (k.0 < node_bound) × (next < length nodes.old.heads.now) × (next < length nodes.old.up.now) × (edge < length nodes.old.down.now) }
    ensures nodes { SameNodes nodes.old nodes.new }
    ensures heads { nodes.new.heads.now ≡ slice_set nodes.old.heads.now next (negsuc k.0) }
    ensures up { nodes.new.up.now ≡ slice_set nodes.old.up.now next (edge + 1) }
    ensures down { nodes.new.down.now ≡ slice_set nodes.old.down.now edge (next - 1) }
{
    nodes.set_below(edge, next - 1);
    nodes.set_boundary(next, k);
    nodes.set_above(next, edge + 1);
}

// The entries come as two lists, and as no struct of them: they are parts of two lists that C lends, and a struct of parts would be made at each
// call and taken apart at once.
//
// Lays out option k behind boundary `edge`, unless it holds no primary item; the last boundary then.
pub fn put_option(
    nodes: &mut Nodes,
    tints: &mut [u32],
    k: Opt,
    edge: usize,
    items: &[u32],
    colours: &[u32],
) -> usize
    requires lengths { length colours.now ≡ length items.now }
    requires turn { (P : Plan) × in_nodes (Turn P nodes.old.shape.np k.0 edge items.now colours.now) nodes.old tints.old }
    ensures nodes { SameNodes nodes.old nodes.new }
    ensures place { result ≡ behind nodes.old.shape.np edge items.now }
    ensures laid { (P : Plan) → in_nodes (Turn P nodes.old.shape.np k.0 edge items.now colours.now) nodes.old tints.old
        → in_nodes (Open P 0 (result + 1)) nodes.new tints.new }
{
    if !has_primary(items, nodes.shape.np) {
        return edge;
    }
    put_entries(nodes, tints, edge, items, colours);
    let next = edge + 1 + items.len();
    put_spacer(nodes, edge, next, k);
    next
}
