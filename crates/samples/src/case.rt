// A case of the input.
use crate::renumber::renumber;
use crate::rule;
use crate::run::run;
use checking::room::Lengths;
use lines::{numbers, say};
use rules::lent::Given;
use rules::problem::Problem;

// The longest lists of a case: one more than the figures take.
const ENTRIES: usize = Problem::ENTRIES + 1;

const OPTIONS: usize = Problem::OPTIONS + 1;

// What a problem at the very figures asks for: more than any other does.
const WHOLE: Lengths = Lengths {
    heads: Problem::NODES,
    up: Problem::NODES,
    down: Problem::NODES,
    tints: Problem::NODES,
    marks: Problem::MARKS,
    kept: Problem::ITEMS,
    ends: Problem::OPTIONS,
    numbers: Problem::OPTIONS,
    items: Problem::ENTRIES,
    colours: Problem::ENTRIES,
};

// The lengths of the lists that are lent, in the order of the call.
fn lengths_of(t: &[u8]) -> Lengths {
    // into no list: only how many there are is asked
    if numbers::entries(t, &mut []) == 0 {
        return WHOLE;
    }
    let [
        heads,
        up,
        down,
        tints,
        marks,
        kept,
        ends,
        numbers,
        items,
        colours,
    ] = numbers::row::<10>(t).map(|n| n as usize);
    Lengths {
        heads,
        up,
        down,
        tints,
        marks,
        kept,
        ends,
        numbers,
        items,
        colours,
    }
}

// The problem that four fields write, and its run.
fn problem(counts: &[u8], items: &[u8], colours: &[u8], ends: &[u8], lent: Lengths) {
    // fixed memory: as long as any case
    let mut i = [0u32; ENTRIES];
    let mut c = [0u32; ENTRIES];
    let mut e = [0u32; OPTIONS];
    let [np, ns, cap] = numbers::row::<3>(counts);
    let given = Given {
        np,
        ns,
        cap,
        items: rule::list(items, &mut i, numbers::entries),
        colours: rule::list(colours, &mut c, numbers::colours),
        ends: rule::list(ends, &mut e, numbers::ends),
    };
    run(given, lent);
}

// What stands behind so many bars, up to the next one.
fn field(t: &[u8], bars: usize) -> &[u8] {
    t.split(|b| *b == b'|').nth(bars).unwrap_or(&[])
}

// A case of the call: the options stand in one field, or the items, the colours and the ends in three.
fn call(t: &[u8]) {
    let counts = field(t, 1);
    let first = field(t, 2);
    if t.contains(&b'[') {
        problem(counts, first, first, first, WHOLE);
    } else {
        problem(
            counts,
            first,
            field(t, 3),
            field(t, 4),
            lengths_of(field(t, 5)),
        );
    }
}

// A line of the input: a heading, or a case.
pub(crate) fn line(t: &[u8]) {
    say::bytes(t);
    if t.is_empty() || t.starts_with(b"#") {
        say::text("\n");
        // by the letter, which the input writes
    } else if rule::mark(field(t, 1)) == Some(b'r') {
        renumber(field(t, 1), field(t, 2), field(t, 3), field(t, 4));
    } else {
        call(t);
    }
}
