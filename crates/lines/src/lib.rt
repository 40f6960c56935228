// What the programs that run the calls share: places of a text, the numbers in it, fronts of lists, and what is written to standard output.
#![tactic(auto)]

pub mod numbers;
pub mod parts;
pub mod say;
pub mod text;
