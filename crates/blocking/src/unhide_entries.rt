// Undoing the walk round one rival.

ghost use Rattle.links.specs.Ground.{Ground, Holds};
ghost use Rattle.links.specs.Nodes.{in_nodes, SameNodes};
ghost use Rattle.blocking.specs.Undo.{Half};

use links::nodes::Nodes;

// Puts the entries of rr's option back, from node `from` backwards round to rr. Over a boundary or a shortened entry the link down leads on.
pub fn unhide_entries(nodes: &mut Nodes, from: usize, rr: usize)
    requires { (g : Ground) × in_nodes (Half g rr from) nodes.old }
    ensures nodes { SameNodes nodes.old nodes.new }
    ensures undone { (g : Ground) → in_nodes (Half g rr from) nodes.old → in_nodes (Holds g) nodes.new }
{
    let mut qq = from;
    // a walk back along links
    while qq != rr {
        match nodes.column(qq) {
            None => qq = nodes.below(qq),
            Some(i) => {
                nodes.more(i);
                nodes.relink(qq);
                qq -= 1;
            }
        }
    }
}
