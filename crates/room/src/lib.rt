// The working room at the end of a call: zeros in every place of the five lists, also past the part that was needed.
#![tactic(auto)]

pub mod clear;
pub mod clear_room;
