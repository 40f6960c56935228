// The desk's call, over lists of bytes: its figures are small, so it has the working room in itself. No list of bytes is refused but by the
// table's numbers. `reduce` is the public call; the others are its steps.
#![tactic(auto)]

pub mod hand_back;
pub mod own_room;
pub mod reduce;
pub mod thin;
