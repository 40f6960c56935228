// Runs the calls over lists on the cases of standard input, and writes each case with what came back.
//
// A line of the input that begins with # is written as it is. Every other is a case, in fields between bars: a name; np, ns and cap; and the
// options as document 01 writes them. A case that cannot be written so has the items, the colours and the ends in three fields instead, and may
// have in a fourth the lengths of the ten lists that are lent, in the order of the call; without it they are long enough for any problem. A long
// list is written by a rule (`rule`). A case of the two renumberings has `renumber` and the count of primaries in the second field, then the kept
// list, the items, and the length of the list for the outcome.
//
// Behind the arrow stand the answer's number and values in the order of document 01's table, and for a reduced problem the fronts of the five lists
// of the result. A list of more than 13 numbers is cut short, with its length and a sum over all of it. The lists that are lent hold a pattern
// first. `ok` says what was then compared to the end of each: after 0 or 1 every working list is zero, and after a refusal it holds the pattern; a
// list of the result, or of a renumbering, holds the pattern behind its front, and all over where nothing may be written. A list that isn't so is
// named as WRONG.
#![tactic(auto)]

mod case;
mod compare;
mod lists;
mod renumber;
mod report;
mod rule;
mod run;
mod show;

// Line by line: what no line end follows is no line.
// (The other program has such a loop too: as a function of both it would take a closure, and no clause could tell of its calls.)
fn cases(t: &[u8]) {
    for line in t.split_inclusive(|b| *b == b'\n') {
        if let Some(case) = line.strip_suffix(b"\n") {
            case::line(case);
        }
    }
}

fn main() {
    let mut text = io::large_buffer();
    let n = io::read_full(0, &mut text);
    cases(&text[..n]);
}
