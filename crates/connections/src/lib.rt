//! Connections of a node that stays: what comes in on each as bytes becomes requests, and answers and
//! notices go out again. There is no socket here: bytes are handed in and taken out.
//!
//! - `connection`: one connection: its requests, and what waits to go out.
//! - `notice`: what a node tells without being asked; `answerer`: what answers requests.
//! - `desk`: all connections: whose request comes next, and who may bring a long input.
//! - `laws`: what holds of all connections, however bytes are brought.
#![tactic(auto)]

mod answerer;
mod connection;
mod desk;
mod laws;
mod notice;

pub use answerer::{Answerer, Said};
pub use connection::{Asked, Connection, LONG_INPUT, MOST_BROUGHT, Standing};
pub use desk::{Desk, Done, Place};
pub use laws::{bringing_goes_on, connections_begin, hearing_is_whole};
pub use notice::lines_in;
