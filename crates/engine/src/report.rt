// The result, from the nodes that the rounds left to the five result lists.
ghost use Rattle.std.specs.Prelude.{◌≡◌};
ghost use Rattle.rules.specs.Lent.{SameResults, results_in};
ghost use Rattle.rules.specs.Outcome.{fronts, said_of};
ghost use Rattle.rules.specs.Paper.{paper};
ghost use Rattle.rules.specs.Result.{results_of};
ghost use Rattle.links.specs.Ground.{Ground};
ghost use Rattle.showing.specs.Showing.{state_of};
ghost use Rattle.engine.specs.Report.{Reported};

use links::nodes::Nodes;
use preproc::rounds::Done;
use result::items::get_items;
use result::options::get_options;
use rules::answer::Answer;
use rules::lent::Results;

// Writes the kept items and the options that are left, and counts them.
pub fn report(nodes: &Nodes, tints: &[u32], done: Done, results: &mut Results<u32>) -> Answer
    requires { (g : Ground) × Reported g nodes.now tints.now (results_in results.old) }
    ensures lists { SameResults results.old results.new }
    ensures reported { (g : Ground) → Reported g nodes.now tints.now (results_in results.old)
        → (paper result ≡ said_of nodes.now.shape.np nodes.now.shape.n (state_of g) done.rounds done.settled)
        × (results_in results.new ≡ fronts (results_of nodes.now.shape.n (state_of g)) (results_in results.old)) }
{
    let counts = get_items(nodes, results.kept);
    let at = get_options(nodes, tints, results);
    Answer::Reduced {
        primaries: counts.primaries,
        secondaries: counts.secondaries,
        options: at.option as u32,
        entries: at.entry as u32,
        rounds: done.rounds,
        settled: done.settled,
    }
}
