//! Mailbox files: records travel in files that may be lost or read twice, between two people who
//! are never online together. A file is read into a store, each on a session of its own, and one
//! with what is due to a contact is written.
//!
//! - `reading`: a file that is read; `ends`: how its reading ends.
//! - `writing`: a file that is written.
//! - `steps`: a session that begins, and a batch that is committed.
//! - `laws`: what both come to over journals; what files come to is a law of `mailbox_laws`.
#![tactic(auto)]

mod ends;
pub mod laws;
mod reading;
mod steps;
mod writing;

pub use ends::{BoxEnd, BoxEnding};
pub use reading::read_box;
pub use writing::write_box;
