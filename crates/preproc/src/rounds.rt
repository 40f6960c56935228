// A round, and the rounds under a cap.
ghost use Rattle.std.specs.Prelude.{◌≡◌};
ghost use Rattle.rules.specs.Rounds.{uncovered as uncovered_in, round as round_of, rounds as rounds_of};
ghost use Rattle.links.specs.Ground.{Ground};
ghost use Rattle.links.specs.Nodes.{in_nodes, SameNodes};
ghost use Rattle.showing.specs.Showing.{state_of};
ghost use Rattle.preproc.specs.Standing.{Standing, Figured, Looking, item_told, Stepped, Ended};

use crate::step::reduce_options;
use crate::stop::Stop;
use links::item::{column_of, item_of_column};
use links::nodes::Nodes;
use rules::answer::Cause;
use rules::number::Item;

// How many rounds were run, and whether the last one removed nothing.
#[derive(Clone, Copy, Debug, PartialEq, Eq)]
pub struct Done {
    pub rounds: u32,
    pub settled: bool,
}

// A primary item that is left in no option, why, and in which round.
#[derive(Clone, Copy, Debug, PartialEq, Eq)]
pub struct Infeasible {
    pub item: Item,
    pub cause: Cause,
    pub round: u32,
}

// The lowest primary item that is in no option.
pub fn uncovered(nodes: &Nodes) -> Option<Item>
    requires { (g : Ground) × Looking g nodes.now.shape.np nodes.now.heads.now }
    ensures { (g : Ground) → Looking g nodes.now.shape.np nodes.now.heads.now → result ≡ item_told (uncovered_in nodes.now.shape.np (state_of g)) }
{
    // half open, since the library's law on `find` is of such ranges
    let c = (1..nodes.shape.np + 1).find(|c| nodes.is_empty(*c))?;
    Some(item_of_column(c))
}

// Items upward, each one whose column is not empty then. Whether anything was removed.
pub fn round(nodes: &mut Nodes, tints: &mut [u32], marks: &mut [u32]) -> Result<bool, Stop>
    requires { (g : Ground) × in_nodes (Standing g) nodes.old tints.old marks.old
        × Figured g.plan nodes.old.shape }
    ensures nodes { SameNodes nodes.old nodes.new }
    ensures round { (g : Ground) → in_nodes (Standing g) nodes.old tints.old marks.old
        → Figured g.plan nodes.old.shape
        → in_nodes (Stepped g.plan (round_of nodes.old.shape.np nodes.old.shape.n (state_of g)) result) nodes.new tints.new marks.new }
{
    let mut removed = false;
    for number in 0..nodes.shape.n as u32 {
        let item = Item(number);
        if !nodes.is_empty(column_of(item)) {
            removed |= reduce_options(nodes, tints, marks, item)?;
        }
    }
    Ok(removed)
}

// While fewer rounds than the cap have run; a round that removed nothing ends the work.
pub fn rounds(
    nodes: &mut Nodes,
    tints: &mut [u32],
    marks: &mut [u32],
    cap: u32,
) -> Result<Done, Infeasible>
    requires { (g : Ground) × in_nodes (Standing g) nodes.old tints.old marks.old
        × Figured g.plan nodes.old.shape }
    ensures nodes { SameNodes nodes.old nodes.new }
    ensures rounds { (g : Ground) → in_nodes (Standing g) nodes.old tints.old marks.old
        → Figured g.plan nodes.old.shape
        → in_nodes (Ended g.plan (rounds_of nodes.old.shape.np nodes.old.shape.n cap 0 (state_of g)) result) nodes.new tints.new marks.new }
{
    for run in 0..cap {
        // the three ends of a round, side by side
        match round(nodes, tints, marks) {
            Err(Stop { item, cause }) => {
                return Err(Infeasible {
                    item,
                    cause,
                    round: run + 1,
                });
            }
            Ok(false) => {
                return Ok(Done {
                    rounds: run + 1,
                    settled: true,
                });
            }
            Ok(true) => {}
        }
    }
    Ok(Done {
        rounds: cap,
        settled: false,
    })
}
