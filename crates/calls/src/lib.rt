// The call over lists: any numbers and any lists, of any lengths. What a check refuses is refused by its number, with nothing written; all else goes
// to the core. It has no `requires`, and its `ensures` says the one possible outcome.
#![tactic(auto)]

ghost use Rattle.std.specs.Prelude.{◌≡◌, ℕ, false, length, IfOk};
ghost use Rattle.rules.specs.Problem.{figures};
ghost use Rattle.rules.specs.Rooms.{Room as PaperRoom, Results as PaperResults};
ghost use Rattle.rules.specs.Checks.{refusal_of};
ghost use Rattle.rules.specs.Refusals.{refusal_in};
ghost use Rattle.checking.specs.Lent.{Lent};
ghost use Rattle.rules.specs.Lent.{SameRoom, SameResults, room_in, results_in, handed_in};
ghost use Rattle.rules.specs.Outcome.{outcome_of};
ghost use Rattle.rules.specs.Paper.{paper};
ghost use Rattle.engine.specs.Call.{handed, outcome};

use checking::refusal::refusal;
use checking::room::Lengths;
use engine::reduce::reduce as core_call;
use rules::answer::Answer;
use rules::lent::{Given, Lists, Results, Room};
use rules::problem::Problem;
use rules::refusal::Refusal;

// The problem, if no check refuses it: its constructor makes those of the counts.
fn checked(np: u32, ns: u32, lists: &Lists, lent: Lengths) -> Result<Problem, Refusal>
    ensures refused { (cap : ℕ) (room : PaperRoom) (results : PaperResults) → Lent lent room results
        → refusal_in result ≡ refusal_of figures false (handed np ns cap lists.now.items.now lists.now.colours.now lists.now.ends.now room results) }
    ensures counts { IfOk result (λ p. p ≡ record { np = np; ns = ns; options = length lists.now.ends.now; entries = length lists.now.items.now }) }
{
    let entries = lists.items.len();
    let differ = entries != lists.colours.len();
    let problem = Problem::new(np, ns, lists.ends.len(), entries, differ)?;
    refusal(problem, lists, lent)?;
    Ok(problem)
}

// Thins out a problem, in the working lists of the room, to the lists of the result.
pub fn reduce(given: &Given<u32>, room: &mut Room, results: &mut Results<u32>) -> Answer
    ensures room { SameRoom room.old room.new }
    ensures results { SameResults results.old results.new }
    ensures outcome { outcome (paper result) (room_in room.new) (results_in results.new)
        ≡ outcome_of (handed_in given.now (room_in room.old) (results_in results.old)) }
{
    let lent = Lengths::of(room, results);
    let lists = Lists {
        items: given.items,
        colours: given.colours,
        ends: given.ends,
    };
    match checked(given.np, given.ns, &lists, lent) {
        Err(refused) => Answer::Refused(refused),
        Ok(problem) => core_call(problem, given.cap, &lists, room, results),
    }
}
