// The shape of a problem, as the walks are told it: by value, within the nodes that they are lent.
ghost use Rattle.std.specs.Prelude.{◌≡◌, ◌+◌};

use rules::problem::Problem;

#[derive(Clone, Copy)]
pub struct Shape {
    // how many items are primary, which is the last primary column
    pub np: usize,
    // how many items there are, which is the last column
    pub n: usize,
    // the first node behind the headers and the boundary before the first option
    pub start: usize,
    ghost begins: { start ≡ n + 2 },
}

impl Shape {
    // The shape of an accepted problem.
    pub fn of(problem: Problem) -> Shape
        ensures np { result.np ≡ problem.np }
        ensures n { result.n ≡ problem.np + problem.ns }
    {
        let n = problem.n();
        Shape {
            np: problem.np as usize,
            n,
            start: n + 2,
        }
    }
}
