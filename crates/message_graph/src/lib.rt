//! The next step of a list of messages that wait for one another, without a rescan.
#![tactic(auto)]

mod graph;
mod index;
mod nodes;
mod plain;
mod states;
mod waiters;

pub use graph::Graph;
pub use nodes::{Ending, Fate, Judged, Names, Node, Step};
pub use plain::{fate_in, next_in};
