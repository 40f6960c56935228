// What came back from a call: the answer, and all ten lists compared with what they must be after it.
use crate::compare::Found;
use crate::lists::{Results, Room, SIGNED_WORK, WORK};
use crate::show::Answered;
use checking::room::Lengths;
use lines::parts::front;
use rules::answer::Answer;
use std::fmt;

// What the lists must be like after an answer: how many numbers stand at the front of the lists of the result, and whether the working lists
// are zero or hold the pattern.
#[derive(Clone, Copy, Default)]
struct Wrote {
    cleared: bool,
    kept: usize,
    options: usize,
    entries: usize,
}

impl From<Answer> for Wrote {
    fn from(answer: Answer) -> Wrote {
        match answer {
            Answer::Reduced {
                primaries,
                secondaries,
                options,
                entries,
                ..
            } => Wrote {
                cleared: true,
                kept: primaries as usize + secondaries as usize,
                options: options as usize,
                entries: entries as usize,
            },
            Answer::Infeasible { .. } => Wrote {
                cleared: true,
                ..Wrote::default()
            },
            Answer::Refused(_) => Wrote::default(),
        }
    }
}

// The answer, and the ten lists after it.
#[derive(Clone, Copy)]
pub(crate) struct Report<'a> {
    pub answer: Answer,
    pub lent: Lengths,
    pub room: &'a Room,
    pub results: &'a Results,
}

impl<'a> Report<'a> {
    // What each list is found to be: those of the result, and the working lists as far as they were lent.
    fn found(self) -> [Found<'a>; 10] {
        let Report {
            answer,
            lent,
            room,
            results,
        } = self;
        let w = Wrote::from(answer);
        let work = if w.cleared { 0 } else { WORK };
        let signed_work = if w.cleared { 0 } else { SIGNED_WORK };
        [
            Found::result("; kept", &results.kept, w.kept),
            Found::result("; ends", &results.ends, w.options),
            Found::result("; numbers", &results.numbers, w.options),
            Found::result("; items", &results.items, w.entries),
            Found::result("; colours", &results.colours, w.entries),
            Found::working("; heads", front(&room.heads, lent.heads), &signed_work),
            Found::working("; up", front(&room.up, lent.up), &work),
            Found::working("; down", front(&room.down, lent.down), &work),
            Found::working("; tints", front(&room.tints, lent.tints), &work),
            Found::working("; marks", front(&room.marks, lent.marks), &work),
        ]
    }
}

impl fmt::Display for Report<'_> {
    fn fmt<W: fmt::Write>(&self, f: &mut fmt::Formatter<W>) -> fmt::Result {
        let answer = Answered(self.answer);
        write!(f, " -> {answer}")?;
        let all = self.found();
        for found in &all {
            write!(f, "{found}")?;
        }
        if all.iter().all(|found| found.is_right()) {
            write!(f, "; ok")?;
        }
        Ok(())
    }
}
