//! What a node does that holds a store: each command that it is asked for, over the store as it is
//! loaded.
//!
//! - `requests`: the command, with an input and an output of its own; `definitions`: what its words
//!   describe; `listings`: what it lists, of which the text stands once.
#![tactic(auto)]

mod definitions;
mod listings;
mod requests;

pub use requests::obey;
