// A case of the two renumberings, each on a list for the outcome that holds a pattern first.
use crate::compare::Found;
use crate::lists::PATTERN;
use lines::parts::part;
use lines::{numbers, say};
use renumbering::answer::Unnumbered;
use renumbering::lists::{compact, crate_numbers};

// What a call answered, and its list, whose front n items fill where they are renumbered.
fn outcome(name: &str, answer: Result<(), Unnumbered>, n: usize, out: &[u32]) -> bool {
    let filled = if answer.is_ok() { n } else { 0 };
    let found = Found::result(", items", out, filled);
    // document 01 answers 0, place 0 where the numbers are given
    let number = answer.err().map_or(0, Unnumbered::number);
    let place = answer.err().map_or(0, Unnumbered::place);
    say::text(format_args!("{name} {number} place {place}{found}"));
    found.is_right()
}

// Both calls on one input, with lists for the outcome of this length.
fn both(kept: &[u32], primaries: u32, items: &[u32], length: usize) {
    // fixed memory, here and below: as long as any case
    let mut a = [PATTERN; 16];
    let mut b = [PATTERN; 16];
    let x = compact(kept, primaries, items, part(&mut a, length));
    let y = crate_numbers(kept, primaries, items, part(&mut b, length));
    let c = outcome(" -> compact", x, items.len(), &a);
    let d = outcome("; crate's", y, items.len(), &b);
    let ok = if c & d { "; ok" } else { "" };
    say::text(format_args!("{ok}\n"));
}

// The fields are the count of primaries, the kept list, the items and the length of the list for the outcome.
pub(crate) fn renumber(primaries: &[u8], kept: &[u8], items: &[u8], length: &[u8]) {
    let mut k = [0u32; 16];
    let mut i = [0u32; 16];
    let [primaries] = numbers::row::<1>(primaries);
    let [length] = numbers::row::<1>(length);
    both(
        numbers::list(kept, &mut k),
        primaries,
        numbers::list(items, &mut i),
        length as usize,
    );
}
