// Which options that begin with c are blocked, and their deletion.
ghost use Rattle.std.specs.Prelude.{◌≡◌, ℕ, ◌+◌};
ghost use Rattle.links.specs.Ending.{ending};
ghost use Rattle.links.specs.Ground.{Ground};
ghost use Rattle.links.specs.Nodes.{in_nodes, SameNodes, Untouched, column};
ghost use Rattle.condemning.specs.Condemning.{BeforeHiding, Hiding, Tried, Trying, Sparing, Spared};

use crate::chain::{chain, chained};
use crate::mark::mark_items;
use blocking::blocked::blocked;
use links::emptied::Emptied;
use links::nodes::Nodes;
use removing::delete::really_delete_option;

// Tests the option of node r of column c, if r is its first live entry and uncoloured. A blocked one goes to the front of the chain.
fn test_at(
    nodes: &mut Nodes,
    tints: &mut [u32],
    marks: &mut [u32],
    r: usize,
    stack: Option<usize>,
) -> Option<usize>
    requires { (g : Ground) × (i z : ℕ) × (stack ≡ column z)
        × in_nodes (Trying g i r nodes.old.shape z) nodes.old tints.old marks.old }
    ensures nodes { SameNodes nodes.old nodes.new }
    ensures same { Untouched nodes.old nodes.new }
    ensures found { (g : Ground) (i z : ℕ) → stack ≡ column z
        → in_nodes (Trying g i r nodes.old.shape z) nodes.old tints.old marks.old
        → (w : ℕ) × (result ≡ column w) × Tried g i nodes.old.shape.np (r + 1) w tints.new marks.new }
{
    // 0 is no colour, as C lends the list
    if tints[r] != 0 {
        return stack;
    }
    let q = nodes.lead(r);
    if nodes.column(q).is_some() {
        return stack;
    }
    mark_items(nodes, marks, r);
    if blocked(nodes, tints, marks, r) {
        chain(tints, q, stack);
        return Some(r);
    }
    stack
}

// All tests for item c, while it is hidden; the last option found blocked.
pub fn condemn(nodes: &mut Nodes, tints: &mut [u32], marks: &mut [u32], c: usize) -> Option<usize>
    requires { (g : Ground) × (i : ℕ) × BeforeHiding g i c nodes.old.shape
        × in_nodes (Hiding g i) nodes.old tints.old marks.old }
    ensures nodes { SameNodes nodes.old nodes.new }
    ensures same { Untouched nodes.old nodes.new }
    ensures found { (g : Ground) (i : ℕ) → BeforeHiding g i c nodes.old.shape
        → in_nodes (Hiding g i) nodes.old tints.old marks.old
        → (w : ℕ) × (result ≡ column w) × Tried g i nodes.old.shape.np g.plan.N w tints.new marks.new }
{
    let mut stack = None;
    let mut r = nodes.below(c);
    // down the column's links
    while r >= nodes.shape.start {
        stack = test_at(nodes, tints, marks, r, stack);
        r = nodes.below(r);
    }
    stack
}

// Deletes the options of the chain, the highest first, each to its end, until a primary item is left in no option.
pub fn delete_condemned(
    nodes: &mut Nodes,
    tints: &[u32],
    stack: Option<usize>,
) -> Result<(), Emptied>
    requires { (g : Ground) × (i z : ℕ) × (stack ≡ column z)
        × in_nodes (Sparing g i nodes.old.shape.np z) nodes.old tints.now }
    ensures nodes { SameNodes nodes.old nodes.new }
    ensures deleted { (g : Ground) (i z : ℕ) → stack ≡ column z
        → in_nodes (Sparing g i nodes.old.shape.np z) nodes.old tints.now
        → (w : ℕ) × (result ≡ ending w) × in_nodes (Spared g i nodes.old.shape.np) nodes.new w }
{
    let mut next = stack;
    // along the chain, which is known link by link
    while let Some(r) = next {
        really_delete_option(nodes, r)?;
        next = chained(tints, nodes.lead(r));
    }
    Ok(())
}
