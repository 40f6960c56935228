// The options that are left (p.rs `get_options`): by first live item upward, and for one item by number.
ghost use Rattle.std.specs.Prelude.{◌≡◌, List, ◌++◌, length};
ghost use Rattle.rules.specs.Lent.{SameResults};
ghost use Rattle.rules.specs.Result.{Numbered, kept_options, results_of};
ghost use Rattle.links.specs.Ground.{Ground};
ghost use Rattle.links.specs.Shown.{shown};
ghost use Rattle.result.specs.Left.{column_options};
ghost use Rattle.result.specs.Writing.{FourLists, Written};
ghost use Rattle.result.specs.Writer.{SameWriter, lists_of, lists_in};
ghost use Rattle.result.specs.Reading.{NodesRead, ColumnAt, LongEnough, Returned};

use crate::option::get_option;
use crate::writer::Writer;
use links::nodes::Nodes;
use rules::lent::Results;

// How many options and entries are written.
#[derive(Clone, Copy, Debug, PartialEq, Eq)]
pub struct Cursor {
    pub option: usize,
    pub entry: usize,
}

// Writes the options whose first live entry is in column c, from the top down, behind what is written. Below the last entry comes the header again.
fn get_column(nodes: &Nodes, tints: &[u32], c: usize, out: &mut Writer)
    requires { (g : Ground) × (old : FourLists) × (xs : List Numbered)
        × ColumnAt g old (lists_of out.old) xs nodes.now tints.now c out.old.option out.old.entry }
    ensures lists { SameWriter out.old out.new }
    ensures column { (g : Ground) (old : FourLists) (xs : List Numbered)
        → ColumnAt g old (lists_of out.old) xs nodes.now tints.now c out.old.option out.old.entry
        → Written old (lists_of out.new) (xs ++ column_options g c) out.new.option out.new.entry }
{
    let mut r = nodes.below(c);
    // down the column's links
    while r >= nodes.shape.start {
        let first = nodes.column(nodes.lead(r)).is_none();
        if first {
            get_option(nodes, tints, r, out);
        }
        r = nodes.below(r);
    }
}

// Writes the options that are left to the fronts of the four lists, item by item; how many options and entries that are.
pub fn get_options(nodes: &Nodes, tints: &[u32], results: &mut Results<u32>) -> Cursor
    requires { (g : Ground) × NodesRead g nodes.now tints.now × LongEnough (results_of nodes.now.shape.n (shown g.plan g.on)) (lists_in results.old) }
    ensures lists { SameResults results.old results.new }
    ensures kept { results.new.kept.now ≡ results.old.kept.now }
    ensures options { (g : Ground) → NodesRead g nodes.now tints.now → LongEnough (results_of nodes.now.shape.n (shown g.plan g.on)) (lists_in results.old)
        → Returned (results_of nodes.now.shape.n (shown g.plan g.on)) (lists_in results.old) (lists_in results.new)
        × (result.option ≡ length (kept_options nodes.now.shape.n (shown g.plan g.on)))
        × (result.entry ≡ length (results_of nodes.now.shape.n (shown g.plan g.on)).items) }
{
    let mut out = Writer {
        ends: &mut *results.ends,
        numbers: &mut *results.numbers,
        items: &mut *results.items,
        colours: &mut *results.colours,
        option: 0,
        entry: 0,
    };
    for item in 0..nodes.shape.n {
        if !nodes.is_empty(item + 1) {
            get_column(nodes, tints, item + 1, &mut out);
        }
    }
    Cursor {
        option: out.option,
        entry: out.entry,
    }
}
