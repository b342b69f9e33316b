//! The command `tree`: the delivered messages of a group in the order of the walk of their replies.
//!
//! - `tree`: the command; `laws`: what a message of the tree replies to.
//! - `gather`: the delivered messages of a group and what they reply to, from a store.
//! - `thread`: these messages as they come, and `finished` as a tree; `lines`: the lines of a part of
//!   its walk.
#![tactic(auto)]

mod finished;
mod gather;
pub mod laws;
mod lines;
mod thread;
mod tree;

pub use lines::tree_line;
pub use tree::{Window, print_tree, print_tree_loaded};
