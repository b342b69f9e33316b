//! What a run of sessions over links does, as a machine: its places, the events that lead from one
//! to the next, and the paths of events. A course is a path from the first place to the end; one
//! that was broken off is a path to any place. The definitions stand in `specs/`: what a link does
//! in its turn (`LinkTurns`), the turns of a run (`Turns`), how its links end (`Closing`), and what
//! is told of a path (`Events`, `Paths`). Nothing here calls a disk, a link or a clock.
//!
//! - `ends`: how a link stands, and when a run is over.
//! - `laws`: the laws of paths, each the contract of a function that does nothing.
#![tactic(auto)]

mod ends;
pub mod laws;

pub use ends::{LinkEnd, is_over};

/// How many bytes of a link are asked for at once.
pub const PIECE_LEN: usize = 65_536;

/// How many outputs a session makes at most in a turn.
pub const MAX_OUTPUTS: u32 = 64;
