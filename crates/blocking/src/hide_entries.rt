// The walk of the test, forwards.
ghost use Rattle.std.specs.Prelude.{MatchOption};
ghost use Rattle.links.specs.Ground.{Ground, Holds};
ghost use Rattle.links.specs.Nodes.{in_nodes, SameNodes};
ghost use Rattle.blocking.specs.Forward.{Test, Outer, Stopped};

use crate::looks::{clash, stops};
use links::nodes::Nodes;

// Where the walk broke off: at node q of the tested option, at rival rr in the column of q's item, at node qq of rr's option.
#[derive(Clone, Copy, Debug, PartialEq, Eq)]
pub struct Place {
    pub q: usize,
    pub rr: usize,
    pub qq: usize,
}

// Tests the option of r: items of the option outside, rival options in the item's column and their entries inside. Breaks off at the first
// entry whose taking would empty a primary item that r does not hold, before it is taken, and gives the place for undoing; else it comes round.
pub fn hide_entries(nodes: &mut Nodes, tints: &[u32], marks: &[u32], r: usize) -> Option<Place>
    requires { (h : Ground) × Test h tints.now marks.now r nodes.old.shape × in_nodes (Holds h) nodes.old }
    ensures nodes { SameNodes nodes.old nodes.new }
    ensures place { (h : Ground) → Test h tints.now marks.now r nodes.old.shape → in_nodes (Holds h) nodes.old
        → MatchOption result
        (in_nodes (Outer h tints.now marks.now r nodes.old.shape r) nodes.new)
        (λ place. in_nodes (Stopped h tints.now marks.now r nodes.old.shape place.q place.rr place.qq) nodes.new) }
{
    let mut q = r + 1;
    // three walks along links, one in another: each node says which is next. One function, as in the Rust: a place that is found ends all three.
    while q != r {
        let Some(i) = nodes.column(q) else {
            q = nodes.above(q);
            continue;
        };
        let tint = tints[q];
        let mut rr = nodes.below(i);
        while rr >= nodes.shape.start {
            if clash(tint, tints[rr]) {
                let mut qq = rr + 1;
                while qq != rr {
                    let Some(j) = nodes.column(qq) else {
                        qq = nodes.above(qq);
                        continue;
                    };
                    if stops(nodes, marks, j, r) {
                        return Some(Place { q, rr, qq });
                    }
                    nodes.fewer(j);
                    nodes.unlink(qq);
                    qq += 1;
                }
            }
            rr = nodes.below(rr);
        }
        q += 1;
    }
    None
}
