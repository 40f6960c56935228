// Removing: options that are deleted for good, and items that are (p.rs `really_delete_option`, `remove_item`). Nothing here is undone.
//
// Where the Rust stops at a primary item that no option holds any more, these functions answer an `Emptied` with it. The Rust stops half way through
// an option; here the option's deletion runs to its end first, so that what counts or logs deletions finds whole ones. The item that is told is the
// same, the first that was emptied. Between options they stop as the Rust does.
//
// The functions of this crate are steps of the engine: each has a `requires`, and none is a public call.
#![tactic(auto)]

pub mod delete;
pub mod remove;
