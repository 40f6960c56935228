// The result, from numbers to bytes.
ghost use Rattle.std.specs.Prelude.{◌≡◌};
ghost use Rattle.rules.specs.Lent.{SameResults, results_in};
ghost use Rattle.desk_call.specs.HandingBack.{handed_back, Handable};

use rules::answer::Answer;
use rules::lent::Results;
use words::write_words;

// Writes the fronts of the five lists that a reduced answer counts; any other answer has no result.
#[tactic(auto, unfolding(rules::specs::Outcome::fronts))]
pub fn hand_back(answer: Answer, words: &Results<u32>, results: &mut Results<u8>)
    requires { Handable answer (results_in words.now) (results_in results.old) }
    ensures lists { SameResults results.old results.new }
    ensures handed { results_in results.new ≡ handed_back answer (results_in words.now) (results_in results.old) }
{
    // not `if let`: its `else` knows less of the answer
    match answer {
        Answer::Reduced {
            primaries,
            secondaries,
            options,
            entries,
            ..
        } => {
            write_words(words.kept, (primaries + secondaries) as usize, results.kept);
            write_words(words.ends, options as usize, results.ends);
            write_words(words.numbers, options as usize, results.numbers);
            write_words(words.items, entries as usize, results.items);
            write_words(words.colours, entries as usize, results.colours);
        }
        Answer::Infeasible { .. } => {}
        Answer::Refused(_) => {}
    }
}
