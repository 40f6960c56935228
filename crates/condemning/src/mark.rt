// The items of a tested option are marked with its first live entry, so that the test knows them.
ghost use Rattle.std.specs.Prelude.{Bool, ℕ};
ghost use Rattle.links.specs.Ground.{Ground};
ghost use Rattle.links.specs.Taking.{Marked};
ghost use Rattle.condemning.specs.Marks.{Known, Marking};

use links::nodes::Nodes;

// Marks every item of r's option but r's own; r is its first live entry, so the others stand behind it.
pub fn mark_items(nodes: &Nodes, marks: &mut [u32], r: usize)
    requires { (g : Ground) × (on : ℕ → Bool) × Marking g on r nodes.now.heads.now marks.old }
    ensures { (g : Ground) (on : ℕ → Bool) → Marking g on r nodes.now.heads.now marks.old
        → Known g on marks.new × Marked g r marks.new }
{
    let mut q = r + 1;
    // to the boundary, whose place is known only when it is met
    while nodes.option(q).is_none() {
        // a `match`: the `else` of an `if let` would not say that there is no item
        match nodes.column(q) {
            Some(i) => marks[i] = r as u32,
            // a shortened entry has no item to mark
            None => {}
        }
        q += 1;
    }
}
