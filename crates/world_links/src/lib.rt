//! The links of a world of several devices: the records in flight on each, what its ends were
//! given, and what may become of the former by itself. No device stands in it.
//!
//! - `flight`: the records in flight from an end, as they were sent.
//! - `end`: an end of a link.
//! - `link`: a link, and the moves of what is in flight on it.
#![tactic(auto)]

mod end;
mod flight;
mod link;
mod moves;

pub use end::{End, PIECE_LEN};
pub use flight::Flight;
pub use link::Link;
pub use moves::{Move, Side};
