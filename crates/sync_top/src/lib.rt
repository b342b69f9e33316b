//! The commands of a node: what they read, what they print, and their status.
//!
//! - `program`: a command from its words to its status.
//! - `laws`: what holds of the journal that a run of sessions leaves at any moment.
#![tactic(auto)]

pub mod laws;
mod program;

pub use program::{report, run};
pub use sync_words::{Outcome, Status};
