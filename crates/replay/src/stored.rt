// A line of the input, as a list of numbers: who answered; np, ns and cap; the items, the colours and the ends, each with its length before it; and the
// stored answer.
use crate::run::run;
use crate::tally::Heading;
use lines::parts::number_at;
use rules::lent::Given;

#[derive(Clone, Copy)]
pub(crate) struct Stored<'a> {
    by: Heading,
    given: Given<'a, u32>,
    answer: &'a [u32],
}

// The list that has its length before it, and what stands behind it; nothing, where the line ends before.
fn list(l: &[u32]) -> (&[u32], &[u32]) {
    l.split_first()
        .and_then(|(length, rest)| rest.split_at_checked(*length as usize))
        .unwrap_or((&[], &[]))
}

impl<'a> Stored<'a> {
    // Reads a line; a number that isn't there counts as 0, as it did from the first.
    pub(crate) fn new(line: &'a [u32]) -> Stored<'a> {
        let (items, rest) = list(line.get(4..).unwrap_or(&[]));
        let (colours, rest) = list(rest);
        let (ends, answer) = list(rest);
        Stored {
            // the line says it by a number: 0 the Rust, else the rules
            by: if number_at(line, 0) == 0 {
                Heading::ByRust
            } else {
                Heading::ByRules
            },
            given: Given {
                np: number_at(line, 1),
                ns: number_at(line, 2),
                cap: number_at(line, 3),
                items,
                colours,
                ends,
            },
            answer,
        }
    }

    // Whether the calls give the stored answer.
    pub(crate) fn agrees(self) -> bool {
        run(self.given, self.answer)
    }

    // Who answered.
    pub(crate) fn by(self) -> Heading {
        self.by
    }

    // Which outcome is stored. It is stored in numbers, as document 01 has them: 0 reduced, with settled at place 6, 1 infeasible, with the cause at place 2.
    pub(crate) fn outcome(self) -> Option<Heading> {
        match number_at(self.answer, 0) {
            0 if number_at(self.answer, 6) == 1 => Some(Heading::Settled),
            0 => Some(Heading::Unsettled),
            1 => Heading::of_cause(number_at(self.answer, 2)),
            _ => Some(Heading::Refused),
        }
    }
}
