// Checks 16 to 22 of document 01, in the paper's order, each with its place, of a problem whose constructor made those before them. Nothing is written:
// what would be written to is known by its length alone. `refusal` is all of them; the others are its parts, and where one has a `requires`, the checks
// before it leave that.
#![tactic(auto)]

pub mod ends;
pub mod entries;
pub mod refusal;
pub mod room;
