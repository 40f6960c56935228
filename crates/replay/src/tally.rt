// What is counted, and how it is written.
use std::fmt;

// What a line counts under: its outcome, who answered, and whether it differs.
#[derive(Clone, Copy, PartialEq, Eq, Debug)]
pub(crate) enum Heading {
    Settled,
    Unsettled,
    Cause1,
    Cause2,
    Cause3,
    Refused,
    ByRust,
    ByRules,
    Differs,
}

impl Heading {
    const ALL: [Heading; 9] = [
        Heading::Settled,
        Heading::Unsettled,
        Heading::Cause1,
        Heading::Cause2,
        Heading::Cause3,
        Heading::Refused,
        Heading::ByRust,
        Heading::ByRules,
        Heading::Differs,
    ];

    // Infeasible by a cause: the headings of the three stand behind `Unsettled`. No answer has another; a number that is none counts under the heading
    // that it reaches, if any.
    pub(crate) fn of_cause(cause: u32) -> Option<Heading> {
        Heading::ALL.get(1 + cause as usize).copied()
    }
}

#[derive(Clone, Copy, Default)]
pub(crate) struct Tally {
    settled: u32,
    unsettled: u32,
    cause1: u32,
    cause2: u32,
    cause3: u32,
    refused: u32,
    by_rust: u32,
    by_rules: u32,
    differ: u32,
}

impl Tally {
    // The count of a heading.
    fn count(&mut self, heading: Heading) -> &mut u32 {
        match heading {
            Heading::Settled => &mut self.settled,
            Heading::Unsettled => &mut self.unsettled,
            Heading::Cause1 => &mut self.cause1,
            Heading::Cause2 => &mut self.cause2,
            Heading::Cause3 => &mut self.cause3,
            Heading::Refused => &mut self.refused,
            Heading::ByRust => &mut self.by_rust,
            Heading::ByRules => &mut self.by_rules,
            Heading::Differs => &mut self.differ,
        }
    }

    pub(crate) fn add(&mut self, heading: Heading) {
        let count = self.count(heading);
        *count = count.wrapping_add(1);
    }

    pub(crate) fn none_differs(&self) -> bool {
        self.differ == 0
    }

    // How many lines were read: each has one outcome.
    fn read(&self) -> u32 {
        [
            self.settled,
            self.unsettled,
            self.cause1,
            self.cause2,
            self.cause3,
            self.refused,
        ]
        .iter()
        .fold(0u32, |sum, n| sum.wrapping_add(*n))
    }
}

impl fmt::Display for Tally {
    fn fmt<W: fmt::Write>(&self, f: &mut fmt::Formatter<W>) -> fmt::Result {
        let Tally {
            settled,
            unsettled,
            cause1,
            cause2,
            cause3,
            refused,
            by_rust,
            by_rules,
            differ,
        } = *self;
        let read = self.read();
        let agree = read.wrapping_sub(differ);
        writeln!(f, "read: {read}; agree: {agree}; differ: {differ}")?;
        writeln!(
            f,
            "given by the Rust: {by_rust}; by the rules of document 01: {by_rules}"
        )?;
        writeln!(f, "reduced, settled: {settled}; not settled: {unsettled}")?;
        writeln!(
            f,
            "infeasible, cause 1: {cause1}; cause 2: {cause2}; cause 3: {cause3}"
        )?;
        write!(f, "refused: {refused}")
    }
}
