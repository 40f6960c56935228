// Removing an item: each option that holds it is deleted or shortened, and its column is empty then.
ghost use Rattle.std.specs.Prelude.{◌≡◌, ℕ, ◌+◌, ◌-◌, ◌<◌, length, set, pos};
ghost use Rattle.rules.specs.Bounds.{node_bound};
ghost use Rattle.links.specs.Ending.{ending};
ghost use Rattle.links.specs.Ground.{Ground};
ghost use Rattle.links.specs.Nodes.{in_nodes, SameNodes};
ghost use Rattle.removing.specs.Deleting.{Deleting};
ghost use Rattle.removing.specs.Removing.{Walking, holds_other, Dropped, Removing, Removed};

use crate::delete::delete_others;
use links::emptied::Emptied;
use links::nodes::Nodes;

// Whether r's option has an entry of column p besides r.
pub fn holds_item(nodes: &Nodes, r: usize, p: usize) -> bool
    requires { (g : Ground) × Walking g r nodes.now.heads.now nodes.now.up.now }
    ensures { (g : Ground) → Walking g r nodes.now.heads.now nodes.now.up.now → result ≡ holds_other g r p }
{
    let mut q = r + 1;
    // a walk along links, as in `delete_others`
    while q != r {
        match nodes.column(q) {
            None => q = nodes.above(q),
            Some(i) => {
                if i == p {
                    return true;
                }
                q += 1;
            }
        }
    }
    false
}

// Shortens r's option by r: a walk steps over r either way from now on.
pub fn shorten(nodes: &mut Nodes, r: usize)
    requires { (0 < r) × (r + 1 < node_bound) × (r < length nodes.old.heads.now) × (r < length nodes.old.up.now) × (r < length nodes.old.down.now) }
    ensures nodes { SameNodes nodes.old nodes.new }
    ensures heads { nodes.new.heads.now ≡ set nodes.old.heads.now r (pos 0) }
    ensures up { nodes.new.up.now ≡ set nodes.old.up.now r (r + 1) }
    ensures down { nodes.new.down.now ≡ set nodes.old.down.now r (r - 1) }
{
    nodes.set_above(r, r + 1);
    nodes.set_below(r, r - 1);
    nodes.set_head(r, 0);
}

// Shortens r's option where it holds p, else deletes its other entries.
#[tactic(auto, unfolding(crate::specs::Removing::shortened))]
pub fn delete_or_shorten(nodes: &mut Nodes, r: usize, p: usize) -> Result<(), Emptied>
    requires { (g : Ground) × in_nodes (Deleting g r) nodes.old }
    ensures nodes { SameNodes nodes.old nodes.new }
    ensures dropped { (g : Ground) → in_nodes (Deleting g r) nodes.old
        → (z : ℕ) × (result ≡ ending z) × in_nodes (Dropped g nodes.old.shape.np r p) nodes.new z }
{
    if !holds_item(nodes, r, p) {
        return delete_others(nodes, r);
    }
    shorten(nodes, r);
    Ok(())
}

// Column c is empty.
pub fn clear_column(nodes: &mut Nodes, c: usize)
    requires { (c < node_bound) × (c < length nodes.old.heads.now) × (c < length nodes.old.up.now) × (c < length nodes.old.down.now) }
    ensures nodes { SameNodes nodes.old nodes.new }
    ensures heads { nodes.new.heads.now ≡ set nodes.old.heads.now c (pos 0) }
    ensures up { nodes.new.up.now ≡ set nodes.old.up.now c c }
    ensures down { nodes.new.down.now ≡ set nodes.old.down.now c c }
{
    nodes.set_above(c, c);
    nodes.set_below(c, c);
    nodes.set_head(c, 0);
}

// Removes item c (its column), redundant for p: options that hold c lose it where they hold p, and are deleted where not, each to its end, until a
// primary item is emptied.
pub fn remove_item(nodes: &mut Nodes, c: usize, p: usize) -> Result<(), Emptied>
    requires { (g : Ground) × in_nodes (Removing g c p nodes.old.shape.start) nodes.old }
    ensures nodes { SameNodes nodes.old nodes.new }
    ensures removed { (g : Ground) → in_nodes (Removing g c p nodes.old.shape.start) nodes.old
        → (z : ℕ) × (result ≡ ending z) × in_nodes (Removed g c p nodes.old.shape.np) nodes.new z }
{
    let mut r = nodes.below(c);
    // down the column's links
    while r >= nodes.shape.start {
        // shortening changes r's own links
        let next = nodes.below(r);
        delete_or_shorten(nodes, r, p)?;
        r = next;
    }
    clear_column(nodes, c);
    Ok(())
}
