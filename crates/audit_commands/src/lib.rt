//! The command `audit`: a second opinion on the two files of a store.
//!
//! - `audit`: the command, in the place of a load; `lines`: the line of a report.
#![tactic(auto)]

mod audit;
mod lines;

pub use audit::{print_audit, print_audit_loaded};
pub use lines::legal_line;
