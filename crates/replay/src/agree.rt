// Whether an answer and the lists of its result are the stored ones: the number, its values, the five lists, and the items in the crate's numbers, one
// behind another, with nothing left over.
use lines::parts::front;
use renumbering::lists::crate_numbers;
use rules::answer::Answer;
use rules::problem::Problem;

// The five lists of a result, to be read: `Results` lends them to be written, and is no `Copy`.
#[derive(Clone, Copy)]
pub(crate) struct Lists<'a> {
    pub kept: &'a [u32],
    pub ends: &'a [u32],
    pub numbers: &'a [u32],
    pub items: &'a [u32],
    pub colours: &'a [u32],
}

// What is stored behind these lists, and the items in the crate's numbers; None, where others are stored.
fn behind_lists<'a>(stored: &'a [u32], lists: Lists, primaries: u32) -> Option<&'a [u32]> {
    let rest = stored
        .strip_prefix(lists.kept)?
        .strip_prefix(lists.ends)?
        .strip_prefix(lists.numbers)?
        .strip_prefix(lists.items)?
        .strip_prefix(lists.colours)?;
    // fixed memory: as much as a stored answer takes
    let mut out = [0u32; Problem::DESK_ENTRIES];
    crate_numbers(lists.kept, primaries, lists.items, &mut out).ok()?;
    rest.strip_prefix(front(&out, lists.items.len()))
}

// What is stored behind this answer; None, where another is stored.
fn behind<'a>(stored: &'a [u32], answer: Answer, lists: Lists) -> Option<&'a [u32]> {
    match answer {
        Answer::Reduced {
            primaries,
            secondaries,
            options,
            entries,
            rounds,
            settled,
        } => {
            let settled = u32::from(settled);
            // 0 and 1 are document 01's numbers of an answer, as they are stored
            let values = [0, primaries, secondaries, options, entries, rounds, settled];
            let rest = stored.strip_prefix(&values)?;
            let result = Lists {
                kept: front(lists.kept, primaries as usize + secondaries as usize),
                ends: front(lists.ends, options as usize),
                numbers: front(lists.numbers, options as usize),
                items: front(lists.items, entries as usize),
                colours: front(lists.colours, entries as usize),
            };
            behind_lists(rest, result, primaries)
        }
        Answer::Infeasible { item, cause, round } => {
            stored.strip_prefix(&[1, item.0, cause.number(), round])
        }
        Answer::Refused(refusal) => {
            stored.strip_prefix(&[refusal.check.number(), refusal.place])
        }
    }
}

pub(crate) fn agrees(stored: &[u32], answer: Answer, lists: Lists) -> bool {
    behind(stored, answer, lists).is_some_and(|rest| rest.is_empty())
}
