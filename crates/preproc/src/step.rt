// One item's step.
ghost use Rattle.std.specs.Prelude.{◌+◌};
ghost use Rattle.rules.specs.Rounds.{item_step};
ghost use Rattle.links.specs.Ground.{Ground};
ghost use Rattle.links.specs.Nodes.{in_nodes, SameNodes};
ghost use Rattle.links.specs.Plan.{Header};
ghost use Rattle.showing.specs.Showing.{state_of};
ghost use Rattle.preproc.specs.Standing.{Standing, Figured, Stepped};

use crate::stop::{Stop, because};
use condemning::condemn::{condemn, delete_condemned};
use hiding::away::hide;
use hiding::back::unhide;
use links::item::column_of;
use links::nodes::Nodes;
use removing::remove::remove_item;
use rules::answer::Cause;
use rules::number::Item;

// An item takes its step: it is removed if it is redundant, else the blocked options that begin with it are deleted. Hiding it shows which: a primary
// item that is left in no option then is one for which it is redundant, and the last of them is the one to take. Whether an item or an option was removed.
pub fn reduce_options(
    nodes: &mut Nodes,
    tints: &mut [u32],
    marks: &mut [u32],
    item: Item,
) -> Result<bool, Stop>
    requires { (g : Ground) × in_nodes (Standing g) nodes.old tints.old marks.old
        × Figured g.plan nodes.old.shape × Header g.plan (item.0 + 1) }
    ensures nodes { SameNodes nodes.old nodes.new }
    ensures step { (g : Ground) → in_nodes (Standing g) nodes.old tints.old marks.old
        → Figured g.plan nodes.old.shape → Header g.plan (item.0 + 1)
        → in_nodes (Stepped g.plan (item_step nodes.old.shape.np item.0 (state_of g)) result) nodes.new tints.new marks.new }
{
    let c = column_of(item);
    if let Some(p) = hide(nodes, tints, c) {
        unhide(nodes, tints, c);
        because(remove_item(nodes, c, p), Cause::Redundant)?;
        return Ok(true);
    }
    // all tests see the same nodes; what they find is deleted afterwards
    let last = condemn(nodes, tints, marks, c);
    unhide(nodes, tints, c);
    because(delete_condemned(nodes, tints, last), Cause::Blocked)?;
    Ok(last.is_some())
}
