//! The three clients that come with the node, notes, threads and feeds, and the three together.
#![tactic(auto)]

mod bodies;
mod clients;

pub use clients::{Bundle, Feed, Note, Thread};
