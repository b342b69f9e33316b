//! How a command finds a node that serves the store of its folder, hands its words over to it, and
//! tells what it answered.
//!
//! - `meeting`: whether a node answers, until it says that it hears.
//! - `lines`: the line before an answer and the line before a notice.
//! - `wire`: the stream of a node that hears.
//! - `asking`: a request, and its answer told on the outputs.
//! - `watching`: what a node tells of deliveries, told on the output.
#![tactic(auto)]

mod asking;
mod lines;
mod meeting;
mod watching;
mod wire;

pub use asking::{Question, ask};
pub use meeting::{Met, meet};
pub use watching::watch;
pub use wire::Wire;
