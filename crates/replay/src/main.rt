// Replays stored answers: puts each problem of standard input to the calls over lists and compares what comes back, number by number, with the
// answer that is stored beside it. Writes how many there are, how many agree, and how many have each outcome; and the first line that differs.
//
// The input is oracle/replay.txt, and oracle/REPLAY.md says what a line holds and how it was made: most answers were given by the unchanged Rust.
#![tactic(auto)]

mod agree;
mod run;
mod stored;
mod tally;

use lines::numbers::{list, row};
use lines::say;
use lines::text::find;
use stored::Stored;
use tally::{Heading, Tally};

// Counts a line that differs, and writes it, if it is the first.
fn differs(line: &[u8], tally: &mut Tally) {
    if tally.none_differs() {
        say::text("the first line that differs: ");
        say::bytes(line);
        say::text("\n");
    }
    tally.add(Heading::Differs);
}

// A problem and the stored answer.
fn judge(line: &[u8], tally: &mut Tally) {
    // fixed memory: as much as a stored line takes
    let mut l = [0u32; 2048];
    let stored = Stored::new(list(line, &mut l));
    if !stored.agrees() {
        differs(line, &mut *tally);
    }
    if let Some(outcome) = stored.outcome() {
        tally.add(outcome);
    }
    tally.add(stored.by());
}

// Line by line: what no line end follows is no line.
// (The other program has such a loop too: as a function of both it would take a closure, and no clause could tell of its calls.)
fn problems(t: &[u8]) -> Tally {
    let mut tally = Tally::default();
    for line in t.split_inclusive(|b| *b == b'\n') {
        if let Some(line) = line.strip_suffix(b"\n") {
            judge(line, &mut tally);
        }
    }
    tally
}

// The first line of the input is the count of those that follow.
fn replay(t: &[u8]) {
    let (first, rest) = match find(t, 0, b'\n') {
        Some(end) => (&t[..end], &t[end + 1..]),
        None => (t, &t[..0]),
    };
    let [count] = row::<1>(first);
    let tally = problems(rest);
    say::text(format_args!("stored answers: {count}; {tally}\n"));
}

fn main() {
    // 655,360 bytes, in rows: a proof takes an array's elements one by one, and so many in one row are more than it can
    let mut rows = [[0u8; 65536]; 10];
    let text = rows.as_flattened_mut();
    let n = io::read_full(0, &mut *text);
    replay(&text[..n]);
}
