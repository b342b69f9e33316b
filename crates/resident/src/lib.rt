//! A node that stays: a store that is loaded once, and whatever is asked of it afterwards, in any
//! order and number of calls: requests, and sessions over links that come and go beside them.
//!
//! - `resident`: the node, and what it answers to a request.
//! - `sessions`: its sessions.
//! - `working`: the work of a session's call, once the journal is settled.
#![tactic(auto)]

mod resident;
mod sessions;
mod working;

pub use self::resident::Resident;
