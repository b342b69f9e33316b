//! The command `status`: what a store holds, what its journal takes and what is left, and the version
//! of the program.
//!
//! - `status`: the command, behind its load too; `lines`: its lines.
#![tactic(auto)]

mod lines;
mod status;

pub use lines::add_status;
pub use status::{print_status, print_status_loaded};
