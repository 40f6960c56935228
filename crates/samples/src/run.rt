// One call, on lists that hold a pattern first, and what came back.
use crate::lists::{Results, Room};
use crate::report::Report;
use checking::room::Lengths;
use lines::parts::part;
use lines::say;
use rules::lent;

// The call, and the line's second half. The lists that are lent are as long as `lengths` says, up to what the figures ask for.
pub(crate) fn run(given: lent::Given<u32>, lengths: Lengths) {
    let mut room = Room::new();
    let mut results = Results::new();
    let mut lent_room = lent::Room {
        heads: part(&mut room.heads, lengths.heads),
        up: part(&mut room.up, lengths.up),
        down: part(&mut room.down, lengths.down),
        tints: part(&mut room.tints, lengths.tints),
        marks: part(&mut room.marks, lengths.marks),
    };
    let mut lent_results = lent::Results {
        kept: part(&mut results.kept, lengths.kept),
        ends: part(&mut results.ends, lengths.ends),
        numbers: part(&mut results.numbers, lengths.numbers),
        items: part(&mut results.items, lengths.items),
        colours: part(&mut results.colours, lengths.colours),
    };
    let answer = calls::reduce(&given, &mut lent_room, &mut lent_results);
    let report = Report {
        answer,
        lent: lengths,
        room: &room,
        results: &results,
    };
    say::text(format_args!("{report}\n"));
}
