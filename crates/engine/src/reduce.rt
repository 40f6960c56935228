// The core call (p.rs `reduce`).
ghost use Rattle.std.specs.Prelude.{◌≡◌, false};
ghost use Rattle.std.proofs.Math.Option.{none};
ghost use Rattle.rules.specs.Problem.{figures, problem_of};
ghost use Rattle.rules.specs.Checks.{refusal_of};
ghost use Rattle.rules.specs.Lent.{SameRoom, SameResults, room_in, results_in, handed_lists};
ghost use Rattle.rules.specs.Rounds.{reduce as reduce_of};
ghost use Rattle.rules.specs.Outcome.{concluded};
ghost use Rattle.rules.specs.Paper.{paper};
ghost use Rattle.engine.specs.Call.{outcome};

use crate::report::report;
use crate::run::run;
use links::nodes::Nodes;
use links::shape::Shape;
use room::clear_room::clear_room;
use rules::answer::Answer;
use rules::lent::{Lists, Results, Room};
use rules::problem::Problem;

// Thins out an accepted problem.
pub fn reduce(
    problem: Problem,
    cap: u32,
    lists: &Lists,
    room: &mut Room,
    results: &mut Results<u32>,
) -> Answer
    requires { refusal_of figures false (handed_lists problem cap lists.now (room_in room.old) (results_in results.old)) ≡ none }
    ensures room { SameRoom room.old room.new }
    ensures results { SameResults results.old results.new }
    ensures outcome { outcome (paper result) (room_in room.new) (results_in results.new)
        ≡ concluded (handed_lists problem cap lists.now (room_in room.old) (results_in results.old))
        (reduce_of (problem_of problem.np problem.ns lists.now.items.now lists.now.colours.now lists.now.ends.now) cap) }
{
    let tints = &mut *room.tints;
    let marks = &mut *room.marks;
    let mut nodes = Nodes {
        heads: &mut *room.heads,
        up: &mut *room.up,
        down: &mut *room.down,
        shape: Shape::of(problem),
    };
    let answer = match run(&mut nodes, &mut *tints, &mut *marks, cap, lists) {
        Ok(done) => report(&nodes, &*tints, done, results),
        Err(stop) => Answer::Infeasible {
            item: stop.item,
            cause: stop.cause,
            round: stop.round,
        },
    };
    clear_room(room);
    answer
}
