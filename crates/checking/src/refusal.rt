// The checks behind those of the counts.
ghost use Rattle.std.specs.Prelude.{◌≡◌, ℕ, false};
ghost use Rattle.rules.specs.Problem.{Figures};
ghost use Rattle.rules.specs.Rooms.{Room, Results};
ghost use Rattle.rules.specs.Checks.{refusal_of};
ghost use Rattle.rules.specs.Lent.{handed_lists};
ghost use Rattle.rules.specs.Refusals.{refusal_in};
ghost use Rattle.checking.specs.Lent.{Lent};
ghost use Rattle.checking.specs.Made.{Made};

use crate::ends::check_ends;
use crate::entries::{Limits, check_entries};
use crate::room::{Lengths, short_results, short_room};
use rules::lent::Lists;
use rules::problem::Problem;
use rules::refusal::{Check, Refusal, refuse_if};

// The refusal of a problem that was made of the lists' counts, or that there is none: checks 16 to 22. Since its constructor made those before them, this
// is what the whole table says.
pub fn refusal(problem: Problem, lists: &Lists, lent: Lengths) -> Result<(), Refusal>
    requires { (f : Figures) × Made f problem lists.now.items.now lists.now.colours.now lists.now.ends.now }
    ensures { (f : Figures) (cap : ℕ) (room : Room) (results : Results) → Made f problem lists.now.items.now lists.now.colours.now lists.now.ends.now → Lent lent room results
        → refusal_in result ≡ refusal_of f false (handed_lists problem cap lists.now room results) }
{
    check_ends(lists.ends, problem.entries)?;
    let n = problem.n();
    let short = short_room(n, problem.entries, problem.options, lent);
    refuse_if(short, Check::ShortRoom, 0)?;
    let short = short_results(n, problem.entries, problem.options, lent);
    refuse_if(short, Check::ShortResult, 0)?;
    let limits = Limits {
        np: problem.np,
        n: n as u32,
        colour: Problem::COLOUR,
    };
    check_entries(limits, lists)
}
