// The desk's call over bytes.
ghost use Rattle.std.specs.Prelude.{◌≡◌, false};
ghost use Rattle.rules.specs.Problem.{desk_figures};
ghost use Rattle.rules.specs.Lent.{SameResults, results_in};
ghost use Rattle.rules.specs.Paper.{paper};
ghost use Rattle.words.specs.Bytes.{numbers_of};
ghost use Rattle.checking.specs.Made.{Made};
ghost use Rattle.desk_call.specs.Desk.{any_ragged, handed_bytes, serving, served, desk_outcome};

use crate::thin::thin;
use rules::answer::Answer;
use rules::lent::{Given, Lists, Results};
use rules::problem::Problem;
use words::{count, read_words};

// Some byte list has a length that is no multiple of four.
pub fn any_ragged(given: &Given<u8>, results: &Results<u8>) -> bool
    ensures { result ≡ any_ragged given.now.items.now given.now.colours.now given.now.ends.now (results_in results.now) }
{
    words::any_ragged(&[
        given.items.len(),
        given.colours.len(),
        given.ends.len(),
        results.kept.len(),
        results.ends.len(),
        results.numbers.len(),
        results.items.len(),
        results.colours.len(),
    ])
}

// Reads the three lists of a problem that was made of their counts.
pub fn read(problem: Problem, given: &Given<u8>, results: &mut Results<u8>) -> Answer
    requires { Made desk_figures problem (numbers_of given.now.items.now) (numbers_of given.now.colours.now) (numbers_of given.now.ends.now) }
    ensures lists { SameResults results.old results.new }
    ensures served { serving (paper result) (results_in results.new)
        ≡ served false (handed_bytes problem.np problem.ns given.now.cap given.now.items.now given.now.colours.now given.now.ends.now (results_in results.old))
        (results_in results.old) }
{
    // fixed memory: lists as long as the figures allow, read as far as they are filled
    let mut items = [0u32; Problem::DESK_ENTRIES];
    let mut colours = [0u32; Problem::DESK_ENTRIES];
    let mut ends = [0u32; Problem::DESK_OPTIONS];
    read_words(given.items, &mut items);
    read_words(given.colours, &mut colours);
    read_words(given.ends, &mut ends);
    let lists = Lists {
        items: &items[..problem.entries],
        colours: &colours[..problem.entries],
        ends: &ends[..problem.options],
    };
    thin(problem, given.cap, &lists, results)
}

// Thins out a problem handed in as bytes. Counts are checked before anything is read: checks 10 to 15, with 14 for a ragged list in its turn.
pub fn reduce(given: &Given<u8>, results: &mut Results<u8>) -> Answer
    ensures lists { SameResults results.old results.new }
    ensures served { serving (paper result) (results_in results.new)
        ≡ desk_outcome given.now.np given.now.ns given.now.cap given.now.items.now given.now.colours.now given.now.ends.now (results_in results.old) }
{
    let ragged = any_ragged(given, results);
    let options = count(given.ends);
    let entries = count(given.items);
    // `|`, not `||`: two tests and no branch
    let differ = ragged | (entries != count(given.colours));
    match Problem::at_desk(given.np, given.ns, options, entries, differ) {
        Err(refused) => Answer::Refused(refused),
        Ok(problem) => read(problem, given, results),
    }
}
