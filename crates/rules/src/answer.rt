// What a call answers.
ghost use Rattle.std.specs.Prelude.{◌≡◌};
ghost use Rattle.rules.specs.Paper.{paper, cause_number};

use crate::number::Item;
use crate::refusal::Refusal;

// Why a primary item is in no option.
#[derive(Clone, Copy, PartialEq, Eq, Debug)]
pub enum Cause {
    // it was in none at the start
    Start = 1,
    // a redundant item was removed, and its last options with it
    Redundant = 2,
    // its last options were blocked
    Blocked = 3,
}

impl Cause {
    // The number that document 01 gives the cause.
    pub fn number(self) -> u32
        ensures { result ≡ cause_number self }
    {
        self as u32
    }
}

#[derive(Clone, Copy, PartialEq, Eq, Debug)]
pub enum Answer {
    // 0: the counts of kept primaries, secondaries, options and entries; the rounds run; whether the last one removed nothing
    Reduced {
        primaries: u32,
        secondaries: u32,
        options: u32,
        entries: u32,
        rounds: u32,
        settled: bool,
    },
    // 1: the primary item that is in no option, why, and in which round
    Infeasible {
        item: Item,
        cause: Cause,
        round: u32,
    },
    // 10 to 22: which check refuses the input, and at which entry or option
    Refused(Refusal),
}

impl Answer {
    // The number that document 01 gives the answer.
    pub fn number(self) -> u32
        ensures { result ≡ (paper self).number }
    {
        match self {
            Answer::Reduced { .. } => 0,
            Answer::Infeasible { .. } => 1,
            Answer::Refused(refusal) => refusal.check.number(),
        }
    }
}
