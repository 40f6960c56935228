// The rounds (p.rs `reduce_options`, `reduce`): item after item, round after round, over the nodes. The functions of this crate but `because` have a `requires`;
// none is a public call.
#![tactic(auto)]

pub mod rounds;
pub mod step;
pub mod stop;
