// Building the nodes, as the Rust's `init_links` (lib.rs) does for options in sequential order: the headers are cleared, and the options that
// hold a primary item are laid out one after another, each entry at the end of its item's column. The lists are lent and may hold anything
// before; nothing is said of what lies behind the part used.
//
// None of these functions is a public call: all but `has_primary` have a `requires` that the caller has to have checked.
#![tactic(auto)]

pub mod clear;
pub mod close;
pub mod entries;
pub mod init_links;
pub mod option;
