// Undoing the walk down one column.

ghost use Rattle.links.specs.Ground.{Ground, Holds};
ghost use Rattle.links.specs.Nodes.{in_nodes, SameNodes};
ghost use Rattle.blocking.specs.Undo.{Below};

use crate::looks::clash;
use crate::unhide_entries::unhide_entries;
use links::nodes::Nodes;

// Puts back the other entries of every option that clashes with this colour, from node `from` upwards in its column.
pub fn pass_2(nodes: &mut Nodes, tints: &[u32], from: usize, tint: u32)
    requires { (g : Ground) × in_nodes (Below g tints.now from tint nodes.old.shape.start) nodes.old }
    ensures nodes { SameNodes nodes.old nodes.new }
    ensures undone { (g : Ground) → in_nodes (Below g tints.now from tint nodes.old.shape.start) nodes.old
        → in_nodes (Holds g) nodes.new }
{
    let mut rr = from;
    // up the column's links
    while rr >= nodes.shape.start {
        if clash(tint, tints[rr]) {
            unhide_entries(nodes, rr - 1, rr);
        }
        rr = nodes.above(rr);
    }
}
