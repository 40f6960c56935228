// Checks 19 to 22: entry by entry, and within an entry by number.
//
// Check 22 costs one look for each entry: a mark for each item holds the number of the option that last had it, plus one, so that the marks of
// the options before need not be taken away.
ghost use Rattle.std.specs.Prelude.{◌≡◌, List, [], ℕ, ◌+◌, ◌<◌, ◌≤◌, length};
ghost use Rattle.std.proofs.Math.Seq.{slice};
ghost use Rattle.rules.specs.Bounds.{word_bound};
ghost use Rattle.rules.specs.Problem.{entries_of, cut};
ghost use Rattle.rules.specs.Checks.{check_entry, check_option, check_options};
ghost use Rattle.rules.specs.Refusals.{refusal_in};
ghost use Rattle.checking.specs.Marks.{Seen, BelowMark};
ghost use Rattle.checking.specs.Checkable.{Checkable};

use rules::lent::Lists;
use rules::number::Item;
use rules::problem::Problem;
use rules::refusal::{Check, Refusal, refuse_if};

// What an entry keeps to: the count of primary items and that of all items, and the highest colour.
#[derive(Clone, Copy, PartialEq, Eq, Debug)]
pub struct Limits {
    pub np: u32,
    pub n: u32,
    pub colour: u32,
}

// The entry at a place, with its item and colour, 0 for none, as C lends it; `mark` is that of the option.
fn check_entry(
    limits: Limits,
    place: u32,
    marks: &[u32],
    mark: u32,
    item: Item,
    colour: u32,
) -> Result<(), Refusal>
    requires { limits.n ≤ length marks.now }
    ensures { (seen : List ℕ) → Seen mark marks.now seen → refusal_in result ≡ check_entry limits.np limits.n limits.colour place seen (record { item = item.0; colour = colour }) }
{
    refuse_if(item.0 >= limits.n, Check::NoSuchItem, place)?;
    // a speed choice: 20 and 21 refuse no entry without a colour
    if colour > 0 {
        refuse_if(colour > limits.colour, Check::ColourTooHigh, place)?;
        refuse_if(item.0 < limits.np, Check::ColouredPrimary, place)?;
    }
    refuse_if(marks[item.0 as usize] == mark, Check::ItemTwice, place)
}

// The option whose entries are those at a..b; `mark` is one that no item has. The items and the colours come as two slices, and not as `Lists`: the
// ends are no matter here.
fn check_option(
    limits: Limits,
    a: usize,
    b: usize,
    marks: &mut [u32],
    mark: u32,
    items: &[u32],
    colours: &[u32],
) -> Result<(), Refusal>
    requires n_in_bounds { (limits.n ≤ length marks.old) × (a ≤ b) × (b ≤ length items.now) × (length items.now ≡ length colours.now) × (b < word_bound) }
    requires below { BelowMark mark marks.old }
    ensures answer { refusal_in result ≡ check_option limits.np limits.n limits.colour a [] (slice a b (entries_of items.now colours.now)) }
    ensures marks { BelowMark (mark + 1) marks.new }
{
    // by place, since a refusal names the place: a zip of both lists with it would be no plainer
    for j in a..b {
        let item = Item(items[j]);
        check_entry(limits, j as u32, &*marks, mark, item, colours[j])?;
        marks[item.0 as usize] = mark;
    }
    Ok(())
}

// All of them, option by option.
pub fn check_entries(limits: Limits, lists: &Lists) -> Result<(), Refusal>
    requires { Checkable limits.n lists.now.items.now lists.now.colours.now lists.now.ends.now }
    ensures { refusal_in result ≡ check_options limits.np limits.n limits.colour 0 (cut 0 lists.now.ends.now (entries_of lists.now.items.now lists.now.colours.now)) }
{
    // fixed memory: a mark for each item that the figures allow, a number, with 0 for none: an `Option` would take twice the room
    let mut marks = [0u32; Problem::ITEMS];
    let mut begin = 0;
    for (k, end) in lists.ends.iter().enumerate() {
        let end = *end as usize;
        check_option(
            limits,
            begin,
            end,
            &mut marks,
            k as u32 + 1,
            lists.items,
            lists.colours,
        )?;
        begin = end;
    }
    Ok(())
}
