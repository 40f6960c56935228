// The calls from C: plain numbers and lists, and one number back. None has a `requires`, and each says its one possible outcome.
#![tactic(auto)]

pub mod bytes;
pub mod compact;
pub mod lists;
pub mod packed;
