// Undoing the walk round the tested option.

ghost use Rattle.links.specs.Ground.{Ground, Holds};
ghost use Rattle.links.specs.Nodes.{in_nodes, SameNodes};
ghost use Rattle.blocking.specs.Undo.{Behind};

use crate::pass_2::pass_2;
use links::nodes::Nodes;

// Undoes the test of r's option, item by item, from node `from` backwards round to r.
pub fn backup(nodes: &mut Nodes, tints: &[u32], from: usize, r: usize)
    requires { (h : Ground) × in_nodes (Behind h tints.now from r nodes.old.shape.start) nodes.old }
    ensures nodes { SameNodes nodes.old nodes.new }
    ensures undone { (h : Ground) → in_nodes (Behind h tints.now from r nodes.old.shape.start) nodes.old
        → in_nodes (Holds h) nodes.new }
{
    let mut q = from;
    // a walk back along links
    while q != r {
        match nodes.column(q) {
            None => q = nodes.below(q),
            Some(i) => {
                let rr = nodes.above(i);
                pass_2(nodes, tints, rr, tints[q]);
                q -= 1;
            }
        }
    }
}
