//! The trusted edge of a node that stays: links that come and go. No call waits for a peer; who waits
//! asks for the numbers of what is open, and polls them.
//!
//! - `stream`: a stream of a socket, of whichever kind.
//! - `line`: a stream, and what waits to go out on it.
//! - `door`: a place of a node's words, at which lines come up; `dialling`, `listening` are its ways.
//! - `stay_host`: the files of a store, and lines by their numbers.
#![tactic(auto)]

mod addresses;
mod dialling;
mod door;
mod line;
mod listening;
mod place;
mod stay_host;
mod stream;

pub use door::Door;
pub use line::Line;
pub use stay_host::StayHost;
