//! A tree of replies, gone through item by item: each reply stands behind what it replies to, with
//! all that was replied to it.
//!
//! - `Replies` takes items, each with what it replies to, and keeps nothing else.
//! - `Tree` is what its items come to: depths, sizes and the walk, made in three passes over the
//!   items, whatever their shape.
#![tactic(auto)]

mod laws;
mod passes;
mod replies;
mod tree;

pub use laws::{parents_come_first, walk_is_sorted, walks_are_one};
pub use replies::Replies;
pub use tree::Tree;
