// One option that is left (p.rs `get_option`).
ghost use Rattle.std.specs.Prelude.{List, [], ◌∷◌, ◌++◌};
ghost use Rattle.rules.specs.Result.{Numbered};
ghost use Rattle.links.specs.Ground.{Ground};
ghost use Rattle.result.specs.Left.{option_from};
ghost use Rattle.result.specs.Writing.{FourLists, Written};
ghost use Rattle.result.specs.Writer.{SameWriter, lists_of};
ghost use Rattle.result.specs.Reading.{OptionAt};

use crate::writer::Writer;
use links::item::item_of_column;
use links::nodes::Nodes;

// Writes the option of r from r on, behind what is written: its live entries up to the boundary, with their colours, the end of its entries, and
// its number, which the boundary holds. Shortened entries are passed over. With r its first live entry that is all of the option: the Rust goes
// back to the boundary before r first.
pub fn get_option(nodes: &Nodes, tints: &[u32], r: usize, out: &mut Writer)
    requires { (g : Ground) × (old : FourLists) × (xs : List Numbered)
        × OptionAt g old (lists_of out.old) xs nodes.now.heads.now tints.now r out.old.option out.old.entry }
    ensures lists { SameWriter out.old out.new }
    ensures option { (g : Ground) (old : FourLists) (xs : List Numbered)
        → OptionAt g old (lists_of out.old) xs nodes.now.heads.now tints.now r out.old.option out.old.entry
        → Written old (lists_of out.new) (xs ++ (option_from g r ∷ [])) out.new.option out.new.entry }
{
    let mut q = r;
    // to the boundary, whose place is known only when it is met
    let number = loop {
        if let Some(k) = nodes.option(q) {
            break k;
        }
        let column = nodes.column(q);
        if let Some(i) = column {
            out.put(item_of_column(i), tints[q]);
        }
        q += 1;
    };
    out.end(number);
}
