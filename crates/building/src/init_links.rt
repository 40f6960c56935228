// The building of the nodes.
ghost use Rattle.std.specs.Prelude.{ℕ, length};
ghost use Rattle.rules.specs.Problem.{Figures, problem_of};
ghost use Rattle.links.specs.Nodes.{in_nodes, SameNodes};
ghost use Rattle.building.specs.Build.{Buildable, Built};

use crate::clear::clear_headers;
use crate::close::close_columns;
use crate::option::put_option;
use links::nodes::Nodes;
use rules::lent::Lists;
use rules::number::Opt;

// All of it: headers, and the options in their order. An option without a primary item keeps its number and gets no nodes.
pub fn init_links(nodes: &mut Nodes, tints: &mut [u32], marks: &mut [u32], lists: &Lists)
    requires { (f : Figures) × (ns : ℕ) × in_nodes (Buildable f nodes.old.shape.np ns nodes.old.shape.n lists.now.items.now lists.now.colours.now lists.now.ends.now)
        nodes.old tints.old marks.old }
    ensures nodes { SameNodes nodes.old nodes.new }
    ensures lists { (f : Figures) (ns : ℕ)
        → in_nodes (Buildable f nodes.old.shape.np ns nodes.old.shape.n lists.now.items.now lists.now.colours.now lists.now.ends.now)
        nodes.old tints.old marks.old
        → in_nodes (Built (problem_of nodes.old.shape.np ns lists.now.items.now lists.now.colours.now lists.now.ends.now) nodes.old.shape.n (length lists.now.ends.now))
        nodes.new tints.new marks.new }
{
    clear_headers(nodes, marks);
    let mut edge = nodes.shape.n + 1;
    let mut begin = 0;
    for (k, &end) in lists.ends.iter().enumerate() {
        let end = end as usize;
        edge = put_option(
            nodes,
            tints,
            Opt::from(k as u32),
            edge,
            &lists.items[begin..end],
            &lists.colours[begin..end],
        );
        begin = end;
    }
    close_columns(nodes);
}
