// The options that begin with item c, uncoloured: which of them are blocked while c is hidden, and their deletion afterwards (p.rs, the second
// half of `reduce_options`). The functions of this crate have a `requires`; none is a public call.
#![tactic(auto)]

pub mod chain;
pub mod condemn;
pub mod mark;
