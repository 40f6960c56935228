// Hiding an item: every live option that holds it uncoloured loses its other entries, as in the Rust (p.rs, `hide`), and they come back
// in the order in which they went (`unhide`). The walk round one option is a function of its own, each way.
//
// Each function has a `requires`, and none is a public call.
#![tactic(auto)]

pub mod away;
pub mod back;
