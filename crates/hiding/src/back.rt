// Unhiding: the same entries come back, in the same order. A node is put back between the neighbours that it has kept, of which the lower
// one may still be away; when all are back, all links are as they were.
ghost use Rattle.std.specs.Prelude.{List, ◌++◌, ℕ};
ghost use Rattle.links.specs.Ground.{Ground, taken, Holds};
ghost use Rattle.links.specs.Row.{others};
ghost use Rattle.links.specs.Taking.{hides};
ghost use Rattle.links.specs.Nodes.{in_nodes, SameNodes};
ghost use Rattle.hiding.specs.Hiding.{Column};
ghost use Rattle.hiding.specs.Away.{Away, Returning};

use links::nodes::Nodes;

// Puts every entry of rr's option but rr itself back into its column, in the same order.
pub fn unhide_option(nodes: &mut Nodes, rr: usize)
    requires { (g : Ground) × (rest : List ℕ) × Returning g rr rest × in_nodes (Away g (others g rr ++ rest)) nodes.old }
    ensures nodes { SameNodes nodes.old nodes.new }
    ensures back { (g : Ground) (rest : List ℕ) → Returning g rr rest → in_nodes (Away g (others g rr ++ rest)) nodes.old
        → in_nodes (Away g rest) nodes.new }
{
    let mut qq = rr + 1;
    // a walk along links, as in `hide_option`
    while qq != rr {
        match nodes.column(qq) {
            None => qq = nodes.above(qq),
            Some(j) => {
                nodes.relink(qq);
                nodes.more(j);
                qq += 1;
            }
        }
    }
}

// Undoes `hide`: all three lists are as they were before it.
pub fn unhide(nodes: &mut Nodes, tints: &[u32], c: usize)
    requires { (g : Ground) × Column g tints.now c nodes.old.shape.start × in_nodes (Holds (taken g (hides g c))) nodes.old }
    ensures nodes { SameNodes nodes.old nodes.new }
    ensures back { (g : Ground) → Column g tints.now c nodes.old.shape.start → in_nodes (Holds (taken g (hides g c))) nodes.old
        → in_nodes (Holds g) nodes.new }
{
    let mut rr = nodes.below(c);
    // down the column's links
    while rr >= nodes.shape.start {
        // 0 is no colour, as C lends the list
        if tints[rr] == 0 {
            unhide_option(nodes, rr);
        }
        rr = nodes.below(rr);
    }
}
