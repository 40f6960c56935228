// What the walks ask of two colours, and of a column that is about to lose an entry.
ghost use Rattle.std.specs.Prelude.{◌≡◌, not, ◌<◌, length};
ghost use Rattle.rules.specs.Blocked.{agree};
ghost use Rattle.links.specs.Head.{item_of, head};
ghost use Rattle.blocking.specs.Stops.{stops_at};

use links::nodes::Nodes;

// Two entries of one item clash unless they have one equal colour above 0: 0 is no colour, as C lends the list.
pub fn clash(tint: u32, other: u32) -> bool
    ensures { result ≡ not (agree tint other) }
{
    tint == 0 || tint != other
}

// Would one entry less empty column i, of a primary item that carries no mark of r?
pub fn stops(nodes: &Nodes, marks: &[u32], i: usize, r: usize) -> bool
    requires { (i < length nodes.now.heads.now) × (i < length marks.now) × (0 < item_of (head nodes.now.heads.now i)) }
    ensures { result ≡ stops_at nodes.now.heads.now marks.now i r nodes.now.shape.np }
{
    // the head as it lies there: it is compared alone, and no number is made of it
    nodes.heads[i] == 1 && i <= nodes.shape.np && marks[i] as usize != r
}
