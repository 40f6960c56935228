// The exports: the three calls under their names in C, each with the clauses of the library's function that it hands everything to. They repeat its
// signatures since a crate is a library or a static library, not both, and C's names stay.
#![tactic(auto)]

mod bytes;
mod compact;
mod lists;
