// The core, with working room of the desk's own.
ghost use Rattle.std.specs.Prelude.{◌≡◌, false};
ghost use Rattle.std.proofs.Math.Option.{none};
ghost use Rattle.rules.specs.Problem.{figures, problem_of};
ghost use Rattle.rules.specs.Checks.{refusal_of};
ghost use Rattle.rules.specs.Lent.{SameResults, results_in, handed_lists};
ghost use Rattle.rules.specs.Rounds.{reduce as reduce_of};
ghost use Rattle.rules.specs.Outcome.{cleared, concluded};
ghost use Rattle.rules.specs.Paper.{paper};
ghost use Rattle.engine.specs.Call.{outcome};
ghost use Rattle.desk_call.specs.Desk.{desk_room};

use engine::reduce::reduce;
use rules::answer::Answer;
use rules::lent::{Lists, Results, Room};
use rules::problem::Problem;

// Room for a problem at the desk's figures.
#[tactic(auto, unfolding(crate::specs::Desk::desk_room))]
pub fn in_own_room(problem: Problem, cap: u32, lists: &Lists, results: &mut Results<u32>) -> Answer
    requires { refusal_of figures false (handed_lists problem cap lists.now desk_room (results_in results.old)) ≡ none }
    ensures lists { SameResults results.old results.new }
    ensures outcome { outcome (paper result) (cleared desk_room) (results_in results.new)
        ≡ concluded (handed_lists problem cap lists.now desk_room (results_in results.old))
        (reduce_of (problem_of problem.np problem.ns lists.now.items.now lists.now.colours.now lists.now.ends.now) cap) }
{
    let mut heads = [0i32; Problem::DESK_NODES];
    let mut up = [0u32; Problem::DESK_NODES];
    let mut down = [0u32; Problem::DESK_NODES];
    let mut tints = [0u32; Problem::DESK_NODES];
    let mut marks = [0u32; Problem::DESK_MARKS];
    let mut room = Room {
        heads: &mut heads,
        up: &mut up,
        down: &mut down,
        tints: &mut tints,
        marks: &mut marks,
    };
    reduce(problem, cap, lists, &mut room, results)
}
