// The nodes: four lists that hold the live options as columns of linked entries, as in the Rust (c.rs, lib.rs). Node 0 is unused, 1 to n
// are the headers of the items, n + 1 is the first boundary, and behind it stand the options that hold a primary item, each with its
// entries and then its boundary. A head is an item + 1 above 0, 0 for a shortened entry and for the first boundary, minus (k + 1) at
// the boundary after option k; a header's head is the length of its column. The fourth list, of colours, is lent beside `Nodes`: a colour is
// a number, as C lends the list, and 0 is none.
//
// Every number that the lists hold is below `node_bound`, 2 to the 20 (crates/rules/specs/Bounds.antt).
//
// The methods and functions of this crate are the leaves that the walks above it call: each but `column_of` has a `requires`, and none is a public call.
#![tactic(auto)]

pub mod column;
pub mod emptied;
pub mod item;
pub mod lead;
pub mod nodes;
pub mod shape;
