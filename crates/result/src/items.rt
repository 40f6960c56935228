// The items that are kept: those whose columns are not empty. Item c has column c + 1.
ghost use Rattle.std.specs.Prelude.{◌≡◌, ◌-◌, ◌≤◌, ◌<◌, length};
ghost use Rattle.rules.specs.Bounds.{node_bound};
ghost use Rattle.rules.specs.Lists.{written};
ghost use Rattle.rules.specs.Result.{kept_items, primaries_of, secondaries_of};
ghost use Rattle.links.specs.Ground.{Ground};
ghost use Rattle.links.specs.Shown.{shown};
ghost use Rattle.result.specs.Filled.{Filled};
ghost use Rattle.result.specs.Kept.{kept_from};
ghost use Rattle.result.specs.Reading.{HeadsRead};

use links::nodes::Nodes;

// How many of the kept items are primary, and how many secondary.
#[derive(Clone, Copy, Debug, PartialEq, Eq)]
pub struct Counts {
    pub primaries: u32,
    pub secondaries: u32,
}

// Writes the kept items among a .. b - 1 to the front of `kept`; how many they are.
fn keep_items(nodes: &Nodes, a: usize, b: usize, kept: &mut [u32]) -> usize
    requires { (a ≤ b) × (b < node_bound) × (b < length nodes.now.heads.now) × (b - a ≤ length kept.old) }
    ensures few { result ≤ b - a }
    ensures filled { Filled kept.old (kept_from nodes.now.heads.now a b) kept.new result }
{
    // by place: what the front of the list ends as is told by the places written, of which `iter_mut` tells nothing
    let mut next = 0;
    for item in a..b {
        if nodes.is_empty(item + 1) {
            continue;
        }
        kept[next] = item as u32;
        next += 1;
    }
    next
}

// Writes the kept items, upward, to the front of `kept`: the primary ones, which come first, and then the secondary ones.
pub fn get_items(nodes: &Nodes, kept: &mut [u32]) -> Counts
    requires { (nodes.now.shape.np ≤ nodes.now.shape.n) × (nodes.now.shape.n < node_bound) × (nodes.now.shape.n < length nodes.now.heads.now) × (nodes.now.shape.n ≤ length kept.old) }
    ensures { (g : Ground) → HeadsRead g nodes.now.shape.n nodes.now.heads.now
        → (kept.new ≡ written (kept_items nodes.now.shape.n (shown g.plan g.on)) kept.old)
        × (result.primaries ≡ primaries_of nodes.now.shape.np (kept_items nodes.now.shape.n (shown g.plan g.on)))
        × (result.secondaries ≡ secondaries_of nodes.now.shape.np (kept_items nodes.now.shape.n (shown g.plan g.on))) }
{
    let primaries = keep_items(nodes, 0, nodes.shape.np, kept);
    let secondaries = keep_items(nodes, nodes.shape.np, nodes.shape.n, &mut kept[primaries..]);
    Counts {
        primaries: primaries as u32,
        secondaries: secondaries as u32,
    }
}
