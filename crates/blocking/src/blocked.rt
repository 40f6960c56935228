// The test of one option, with everything put back.
ghost use Rattle.std.specs.Prelude.{◌≡◌};
ghost use Rattle.links.specs.Ground.{Ground, Holds};
ghost use Rattle.links.specs.Nodes.{in_nodes, SameNodes, Untouched};
ghost use Rattle.links.specs.Taking.{node_blocked};
ghost use Rattle.blocking.specs.Forward.{Test};

use crate::backup::backup;
use crate::hide_entries::hide_entries;
use crate::pass_2::pass_2;
use crate::unhide_entries::unhide_entries;
use links::nodes::Nodes;

// Is the option of r blocked? The lists are afterwards as before.
pub fn blocked(nodes: &mut Nodes, tints: &[u32], marks: &[u32], r: usize) -> bool
    requires { (h : Ground) × Test h tints.now marks.now r nodes.old.shape × in_nodes (Holds h) nodes.old }
    ensures nodes { SameNodes nodes.old nodes.new }
    ensures same { Untouched nodes.old nodes.new }
    ensures answer { (h : Ground) → Test h tints.now marks.now r nodes.old.shape → in_nodes (Holds h) nodes.old
        → result ≡ node_blocked h r nodes.old.shape.np }
{
    let Some(place) = hide_entries(nodes, tints, marks, r) else {
        backup(nodes, tints, r - 1, r);
        return false;
    };
    unhide_entries(nodes, place.qq - 1, place.rr);
    let above = nodes.above(place.rr);
    pass_2(nodes, tints, above, tints[place.q]);
    backup(nodes, tints, place.q - 1, r);
    true
}
