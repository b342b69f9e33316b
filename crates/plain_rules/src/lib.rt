//! The yardstick of the rules: a view of a list of batches, and a journal that is played without a
//! disk, by plain scans that go over all entries at each call. Tests compare with it what is quick.
//!
//! `view` keeps the held messages (`lines`), the ids wanted from contacts (`wants`) and the ids
//! that may be sent on (`shares`); `rows` and `sessions` are read off the entries at each call,
//! `due` tells what is owed, sent and offered, and `levels` whether a view can be made. `settling`
//! and `hearing` play a journal.
#![tactic(auto)]

mod due;
mod hearing;
mod levels;
mod lines;
mod rows;
mod sessions;
mod settling;
mod shares;
mod view;
mod wants;

pub use hearing::{begin_session, hear_message, take_message};
pub use settling::settle_in;
pub use view::{PlainFault, PlainView};
