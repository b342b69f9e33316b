//! A command over a host in memory: an instance of `sync_top::run` with no condition left, whose
//! contract says the headline of the host's own calls and files.
//!
//! - `fresh`: a host in memory on which no link was made, with what is to come of it.
//! - `run`: a command over such a host.
#![tactic(auto)]

mod fresh;
mod run;

pub use fresh::FreshHost;
pub use run::{Came, run_in_memory};
