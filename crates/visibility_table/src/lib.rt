//! The contacts and groups of a journal, and who sees which group.
#![tactic(auto)]

mod levels;

pub use levels::Levels;
