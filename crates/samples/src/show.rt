// A list and an answer, as they are written to standard output.
use rules::answer::Answer;
use std::fmt;

// A list of numbers: the first 12 and the last, and dots for those between; of one that is cut short also the length, and a sum over all of it.
#[derive(Clone, Copy)]
pub(crate) struct Numbers<'a>(pub &'a [u32]);

// One more number, put into a sum over all that went before.
fn summed(sum: u64, n: u32) -> u64 {
    (sum % 1000003 * 31 + u64::from(n)) % 1000003
}

impl fmt::Display for Numbers<'_> {
    fn fmt<W: fmt::Write>(&self, f: &mut fmt::Formatter<W>) -> fmt::Result {
        let length = self.0.len();
        for (k, n) in self.0.iter().enumerate() {
            if k < 12 || k + 1 == length {
                write!(f, " {n}")?;
            } else if k == 12 {
                write!(f, " ..")?;
            }
        }
        if 13 < length {
            let sum = self.0.iter().copied().fold(0, summed);
            write!(f, " ({length} numbers, sum {sum})")?;
        }
        Ok(())
    }
}

// The answer: its number, and its values in the order of document 01's table.
#[derive(Clone, Copy)]
pub(crate) struct Answered(pub Answer);

impl fmt::Display for Answered {
    fn fmt<W: fmt::Write>(&self, f: &mut fmt::Formatter<W>) -> fmt::Result {
        match self.0 {
            Answer::Reduced {
                primaries,
                secondaries,
                options,
                entries,
                rounds,
                settled,
            } => {
                // 0 and 1 are document 01's numbers of an answer
                let settled = u32::from(settled);
                write!(
                    f,
                    "0 reduced: primaries {primaries}, secondaries {secondaries}, "
                )?;
                write!(
                    f,
                    "options {options}, entries {entries}, rounds {rounds}, settled {settled}"
                )
            }
            Answer::Infeasible { item, cause, round } => {
                let item = item.0;
                let cause = cause.number();
                write!(f, "1 infeasible: item {item}, cause {cause}, round {round}")
            }
            Answer::Refused(refusal) => {
                let number = refusal.check.number();
                let place = refusal.place;
                write!(f, "{number} refused: place {place}")
            }
        }
    }
}
