// The desk's call over numbers: the checks behind those of the counts, the core, and the result back to bytes.
ghost use Rattle.std.specs.Prelude.{◌≡◌, false};
ghost use Rattle.rules.specs.Problem.{desk_figures};
ghost use Rattle.rules.specs.Lent.{SameResults, results_in, handed_lists};
ghost use Rattle.rules.specs.Paper.{paper};
ghost use Rattle.checking.specs.Lent.{Lent};
ghost use Rattle.checking.specs.Made.{Made};
ghost use Rattle.desk_call.specs.Desk.{desk_room, numbers_in, serving, served};

use crate::hand_back::hand_back;
use crate::own_room::in_own_room;
use checking::refusal::refusal;
use checking::room::Lengths;
use rules::answer::Answer;
use rules::lent::{Lists, Results};
use rules::problem::Problem;
use words::count;

// The lengths of the desk's own room, and of byte lists in whole fours.
#[tactic(auto, unfolding(crate::specs::Desk::desk_room))]
pub fn lengths(results: &Results<u8>) -> Lengths
    ensures { Lent result desk_room (numbers_in (results_in results.now)) }
{
    Lengths {
        heads: Problem::DESK_NODES,
        up: Problem::DESK_NODES,
        down: Problem::DESK_NODES,
        tints: Problem::DESK_NODES,
        marks: Problem::DESK_MARKS,
        kept: count(results.kept),
        ends: count(results.ends),
        numbers: count(results.numbers),
        items: count(results.items),
        colours: count(results.colours),
    }
}

// Checks, thins out, and hands back.
pub fn thin(problem: Problem, cap: u32, lists: &Lists, results: &mut Results<u8>) -> Answer
    requires { Made desk_figures problem lists.now.items.now lists.now.colours.now lists.now.ends.now }
    ensures lists { SameResults results.old results.new }
    ensures served { serving (paper result) (results_in results.new)
        ≡ served false (handed_lists problem cap lists.now desk_room (numbers_in (results_in results.old))) (results_in results.old) }
{
    let checked = refusal(problem, lists, lengths(results));
    if let Err(refused) = checked {
        return Answer::Refused(refused);
    }
    // fixed memory: as much as the figures allow
    let mut kept = [0u32; Problem::DESK_ITEMS];
    let mut ends = [0u32; Problem::DESK_OPTIONS];
    let mut numbers = [0u32; Problem::DESK_OPTIONS];
    let mut items = [0u32; Problem::DESK_ENTRIES];
    let mut colours = [0u32; Problem::DESK_ENTRIES];
    let mut words = Results {
        kept: &mut kept,
        ends: &mut ends,
        numbers: &mut numbers,
        items: &mut items,
        colours: &mut colours,
    };
    let answer = in_own_room(problem, cap, lists, &mut words);
    hand_back(answer, &words, results);
    answer
}
