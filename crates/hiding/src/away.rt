// Hiding: the options of a column lose their other entries.
ghost use Rattle.std.specs.Prelude.{ℕ, ◌≡◌};
ghost use Rattle.links.specs.Ground.{Ground, Holds};
ghost use Rattle.links.specs.Row.{others};
ghost use Rattle.links.specs.Taking.{hides};
ghost use Rattle.links.specs.Nodes.{in_nodes, SameNodes, column};
ghost use Rattle.hiding.specs.Hiding.{Around, Column, Taken};

use links::nodes::Nodes;

// Takes every entry of rr's option but rr itself out of its column, in cyclic order from the entry after rr; the last primary item so emptied, or `last`.
pub fn hide_option(nodes: &mut Nodes, rr: usize, last: Option<usize>) -> Option<usize>
    requires { (g : Ground) × Around g rr × in_nodes (Holds g) nodes.old }
    ensures nodes { SameNodes nodes.old nodes.new }
    ensures taken { (g : Ground) (z : ℕ) → last ≡ column z → Around g rr → in_nodes (Holds g) nodes.old
        → (w : ℕ) × (result ≡ column w) × in_nodes (Taken g (others g rr) nodes.old.shape.np z) nodes.new w }
{
    let mut stack = last;
    let mut qq = rr + 1;
    // a walk along links, which it changes itself: each node says which is next, and nothing else can hold the nodes meanwhile
    while qq != rr {
        match nodes.column(qq) {
            // over the boundary to the option's first entry, or past a shortened entry
            None => qq = nodes.above(qq),
            Some(j) => {
                nodes.unlink(qq);
                let t = nodes.fewer(j);
                if t == 0 && j <= nodes.shape.np {
                    stack = Some(j);
                }
                qq += 1;
            }
        }
    }
    stack
}

// Hides item c (its column's number): every live option that holds c uncoloured loses its other entries; the last primary item so emptied, if there is one.
pub fn hide(nodes: &mut Nodes, tints: &[u32], c: usize) -> Option<usize>
    requires { (g : Ground) × Column g tints.now c nodes.old.shape.start × in_nodes (Holds g) nodes.old }
    ensures nodes { SameNodes nodes.old nodes.new }
    ensures taken { (g : Ground) → Column g tints.now c nodes.old.shape.start → in_nodes (Holds g) nodes.old
        → (w : ℕ) × (result ≡ column w) × in_nodes (Taken g (hides g c) nodes.old.shape.np 0) nodes.new w }
{
    let mut stack = None;
    let mut rr = nodes.below(c);
    // down the column's links
    while rr >= nodes.shape.start {
        // 0 is no colour, as C lends the list
        if tints[rr] == 0 {
            stack = hide_option(nodes, rr, stack);
        }
        rr = nodes.below(rr);
    }
    stack
}
