// The result, read off the nodes (p.rs `get_items`, `get_options`, `get_option`): kept items, and the options that are left in the paper's order.
// The functions of this crate have a `requires`; none is a public call.
#![tactic(auto)]

pub mod items;
pub mod option;
pub mod options;
pub mod writer;
