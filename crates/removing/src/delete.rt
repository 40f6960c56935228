// Deleting an option: all its entries leave their columns, and the answer is the first primary item that loses its last option.
ghost use Rattle.std.specs.Prelude.{◌≡◌, [], ◌∷◌, ◌++◌, ℕ};
ghost use Rattle.links.specs.Ending.{ending};
ghost use Rattle.links.specs.Ground.{Ground, Within};
ghost use Rattle.links.specs.Nodes.{in_nodes, SameNodes};
ghost use Rattle.links.specs.Row.{others};
ghost use Rattle.removing.specs.Deleting.{Sitting, Deleting, Deleted};

use links::emptied::Emptied;
use links::item::item_of_column;
use links::nodes::Nodes;

// Takes entry x out of its column; an error if that empties it and its item is primary.
pub fn take_out(nodes: &mut Nodes, x: usize) -> Result<(), Emptied>
    requires { (g : Ground) × in_nodes (Sitting g x) nodes.old }
    ensures nodes { SameNodes nodes.old nodes.new }
    ensures deleted { (g : Ground) → in_nodes (Sitting g x) nodes.old
        → (z : ℕ) × (result ≡ ending z) × in_nodes (Deleted g nodes.old.shape.np (x ∷ [])) nodes.new z }
{
    // the head of an entry that isn't shortened is its column
    let i = nodes.column_at(x);
    nodes.unlink(x);
    if nodes.fewer(i) == 0 && i <= nodes.shape.np {
        return Err(Emptied {
            item: item_of_column(i),
        });
    }
    Ok(())
}

// Takes every entry of r's option but r itself out of its column, in cyclic order from the entry after r; an error with the first primary item that
// this empties.
pub fn delete_others(nodes: &mut Nodes, r: usize) -> Result<(), Emptied>
    requires { (g : Ground) × in_nodes (Deleting g r) nodes.old }
    ensures nodes { SameNodes nodes.old nodes.new }
    ensures deleted { (g : Ground) → in_nodes (Deleting g r) nodes.old
        → (z : ℕ) × (result ≡ ending z) × in_nodes (Deleted g nodes.old.shape.np (others g r)) nodes.new z }
{
    let mut ended = Ok(());
    let mut q = r + 1;
    // a walk along links: each node says which is next
    while q != r {
        match nodes.column(q) {
            // a boundary, or an entry that was shortened: the link up leads on
            None => q = nodes.above(q),
            Some(_) => {
                // `and` keeps the first error, and the walk goes on
                ended = ended.and(take_out(nodes, q));
                q += 1;
            }
        }
    }
    ended
}

// Deletes r's option, to its end: the other entries first, r last.
pub fn really_delete_option(nodes: &mut Nodes, r: usize) -> Result<(), Emptied>
    requires { (g : Ground) × in_nodes (Deleting g r) nodes.old × Within g r }
    ensures nodes { SameNodes nodes.old nodes.new }
    ensures deleted { (g : Ground) → in_nodes (Deleting g r) nodes.old → Within g r
        → (z : ℕ) × (result ≡ ending z) × in_nodes (Deleted g nodes.old.shape.np (others g r ++ (r ∷ []))) nodes.new z }
{
    let others = delete_others(nodes, r);
    let own = take_out(nodes, r);
    others.and(own)
}
