//! The commands of the two people who agree on the groups that they share: `say` and `agree`.
//!
//! - `saying`: the command that joins a group or leaves it; `previous`: the message before.
//! - `agreeing`: the command that sets the levels that both agree on; `words`: what they said.
//! - `deed`: what a target asks of a journal; `setting`: the targets, one after the other;
//!   `adding`: the entries, each a batch of its own; `laws`: which levels they leave;
//!   `saying_laws`: no word is passed over.
#![tactic(auto)]

mod adding;
mod agreeing;
mod deed;
pub mod laws;
mod previous;
mod saying;
pub mod saying_laws;
mod setting;
mod words;

pub use agreeing::{agree, agree_loaded};
pub use deed::skipped_group_line;
pub use saying::{Speech, say, say_loaded};
