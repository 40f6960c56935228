// Lists as the fields of a case write them: plain numbers, the options of document 01, or a rule for a long list, which is a word, the list's length
// and a number n. The word's first letter counts.
use lines::numbers;
use lines::parts::front;
use rules::problem::Problem;

// A quarter of the items, and the last option, of a problem at the very figures.
const QUARTER: u32 = (Problem::ITEMS / 4) as u32;

const LAST: u32 = (Problem::OPTIONS - 1) as u32;

// A rule: which number stands at place k, from 0.
#[derive(Clone, Copy, PartialEq, Eq, Debug)]
enum Rule {
    // `up`: k
    Up,
    // `count`: k + 1
    Count,
    // `same`, or any other word: n
    Same,
    // `fours`: the items of options of four entries, one in each quarter of all items: option j has the j-th there, and begins again behind the last
    Fours,
    // `tints`: the colours of those: none on the first, n on the others
    Tints,
    // `ends`: the ends of those; n from the last on that the figures take
    Ends,
}

impl From<u8> for Rule {
    fn from(letter: u8) -> Rule {
        match letter {
            b'u' => Rule::Up,
            b'c' => Rule::Count,
            b'f' => Rule::Fours,
            b't' => Rule::Tints,
            b'e' => Rule::Ends,
            _ => Rule::Same,
        }
    }
}

impl Rule {
    fn number(self, k: u32, n: u32) -> u32 {
        match self {
            Rule::Up => k,
            Rule::Count => k.wrapping_add(1),
            Rule::Same => n,
            Rule::Fours => k % 4 * QUARTER + k / 4 % QUARTER,
            Rule::Tints => if k % 4 == 0 { 0 } else { n },
            Rule::Ends => if k < LAST { 4 * k + 4 } else { n },
        }
    }

    // Fills a list by the rule that a field writes, and says how long it is to be.
    fn fill(self, t: &[u8], l: &mut [u32]) -> usize {
        let [length, n] = numbers::row::<2>(t);
        for (place, k) in l.iter_mut().zip(0..) {
            *place = self.number(k, n);
        }
        length as usize
    }
}

// What tells a field of options or of a rule: the first byte behind the colon in the alphabet, a bracket or a letter.
pub(crate) fn mark(t: &[u8]) -> Option<u8> {
    t.iter().copied().find(|b| b':' < *b)
}

// The list that a field writes; `options` reads it from the options of document 01.
pub(crate) fn list<'a, F: Fn(&[u8], &mut [u32]) -> usize>(
    t: &[u8],
    l: &'a mut [u32],
    options: F,
) -> &'a [u32]
    requires { F.IsAlwaysCallable options }
{
    let length = match mark(t) {
        Some(b'[') => options(t, &mut *l),
        Some(letter) if b'a' <= letter => Rule::from(letter).fill(t, &mut *l),
        _ => numbers::entries(t, &mut *l),
    };
    front(l, length)
}
