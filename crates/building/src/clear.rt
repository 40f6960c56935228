// The headers as they are before the first option is laid out.
ghost use Rattle.std.specs.Prelude.{◌+◌, ◌<◌, length};
ghost use Rattle.rules.specs.Bounds.{node_bound};
ghost use Rattle.links.specs.Nodes.{in_nodes, SameNodes};
ghost use Rattle.building.specs.Build.{Cleared};

use links::nodes::Nodes;

// Each header alone in its column, of length 0; the first boundary, n + 1; and no item is marked.
pub fn clear_headers(nodes: &mut Nodes, marks: &mut [u32])
    requires { (nodes.old.shape.n + 1 < node_bound) × (nodes.old.shape.n + 1 < length nodes.old.heads.now) × (nodes.old.shape.n + 1 < length nodes.old.up.now) × (nodes.old.shape.n + 1 < length nodes.old.down.now) × (nodes.old.shape.n < length marks.old) }
    ensures nodes { SameNodes nodes.old nodes.new }
    ensures lists { in_nodes (Cleared nodes.old.shape.n) nodes.new marks.new }
{
    let n = nodes.shape.n;
    nodes.set_head(n + 1, 0);
    for c in 0..=n {
        nodes.set_head(c, 0);
        nodes.set_above(c, c);
        nodes.set_below(c, c);
    }
    marks[..=n].fill(0);
}
