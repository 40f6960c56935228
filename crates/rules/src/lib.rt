// Document 01 as plain data: the numbers of items and options, the problem with its figures, the lists that are lent, the refusals, and
// the answer. What the answer must be is defined in specs/, and the theorems about those definitions stand in crate theorems.
#![tactic(auto)]

pub mod answer;
pub mod lent;
pub mod number;
pub mod problem;
pub mod refusal;
