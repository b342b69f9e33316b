//! The commands that read a stream of records and use no store: `try` and `records`.
//!
//! - `streams`: what each does; `input` reads their input in pieces, and `lister` and `player` hear its
//!   items.
#![tactic(auto)]

mod input;
mod lister;
mod player;
mod streams;

pub use input::MAX_INPUT;
pub use streams::{group_of, list_records, try_group};
