// The block test of one option, while the item of its first live entry is hidden, and its exact undoing (p.rs `hide_entries`, `backup`,
// `pass_2`, `unhide_entries`). The walk forwards takes the rivals' other entries out of their columns, item by item of the tested option,
// and breaks off before a primary item that the option does not hold would be emptied; the undoing puts all back in reverse order.
//
// Each function but `clash` has a `requires` on what the lists hold, and none is a public call.
#![tactic(auto)]

pub mod backup;
pub mod blocked;
pub mod hide_entries;
pub mod looks;
pub mod pass_2;
pub mod unhide_entries;
