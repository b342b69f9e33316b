//! A tree over places that finds the first one that is due, and a set of places that finds the
//! first one in it.
#![tactic(auto)]

mod bits;
mod cells;
mod tree;

pub use bits::Bits;
pub use cells::{is_due, lesser};
pub use tree::DueTree;
