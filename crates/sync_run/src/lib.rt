//! The command `sync`: sessions of a store over up to eight links, from its load to the lines of
//! the links (BSP, "Sync modes"). Whatever the links bring, whatever call fails and whenever the
//! device stops, its store opens to a legal journal that extends the old one and has every byte
//! that was sent.
//!
//! - `run`: the command.
//! - `dialling`: links are dialled and nonces drawn, before anything is committed.
//! - `sessions`: a session begins on each link, and the turns are made.
//! - `closing`: how the links end.
#![tactic(auto)]

mod closing;
mod dialling;
mod run;
mod sessions;

pub use run::{Limits, sync_links};
