//! A life of a node: its store is loaded, and the requests of its input are answered over it.
//!
//! - `life`: from the load to the end of the input.
//! - `holder`: the node that holds the store, and what it answers to a request.
//! - `leaving`: which requests leave the sessions of the store as they were.
//! - `input`: the input of a request, as its command reads it.
#![tactic(auto)]

mod holder;
mod input;
mod leaving;
mod life;

pub use holder::answer_request;
pub use leaving::leaves_sessions;
pub use life::{begin, serve_requests};
