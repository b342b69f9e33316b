//! The places of the words of a node that stays, where links come and go: which of them may be
//! tried when, by readings of a clock alone.
//!
//! - `place`: one place.
//! - `places`: all of them, and the calls that tell what happened.
//! - `laws`: what holds of any place, whatever happens to it.
#![tactic(auto)]

pub mod laws;
mod place;
mod places;

pub use place::{FIRST_PAUSE, IDLE, LONG_LIFE, LONGEST_PAUSE, Place, Stands, Why};
pub use places::Places;

#[cfg(test)]
mod tests;
