// What the rounds find of a problem.
ghost use Rattle.std.specs.Prelude.{ℕ};
ghost use Rattle.rules.specs.Problem.{Figures, problem_of};
ghost use Rattle.rules.specs.Rounds.{reduce as reduce_of};
ghost use Rattle.links.specs.Nodes.{in_nodes, SameNodes};
ghost use Rattle.building.specs.Layout.{plan_of};
ghost use Rattle.building.specs.Build.{Buildable};
ghost use Rattle.preproc.specs.Standing.{Ended};

use building::init_links::init_links;
use links::nodes::Nodes;
use preproc::rounds::{Done, Infeasible, rounds, uncovered};
use rules::answer::Cause;
use rules::lent::Lists;

// Builds the nodes; a primary item in no option is cause 1, in round 0, whatever the cap; and else the rounds run.
pub fn run(
    nodes: &mut Nodes,
    tints: &mut [u32],
    marks: &mut [u32],
    cap: u32,
    lists: &Lists,
) -> Result<Done, Infeasible>
    requires { (f : Figures) × (ns : ℕ) × in_nodes (Buildable f nodes.old.shape.np ns nodes.old.shape.n lists.now.items.now lists.now.colours.now lists.now.ends.now)
        nodes.old tints.old marks.old }
    ensures nodes { SameNodes nodes.old nodes.new }
    ensures found { (f : Figures) (ns : ℕ)
        → in_nodes (Buildable f nodes.old.shape.np ns nodes.old.shape.n lists.now.items.now lists.now.colours.now lists.now.ends.now)
        nodes.old tints.old marks.old
        → in_nodes (Ended (plan_of (problem_of nodes.old.shape.np ns lists.now.items.now lists.now.colours.now lists.now.ends.now))
        (reduce_of (problem_of nodes.old.shape.np ns lists.now.items.now lists.now.colours.now lists.now.ends.now) cap) result)
        nodes.new tints.new marks.new }
{
    init_links(nodes, tints, marks, lists);
    if let Some(item) = uncovered(nodes) {
        return Err(Infeasible {
            item,
            cause: Cause::Start,
            round: 0,
        });
    }
    rounds(nodes, tints, marks, cap)
}
