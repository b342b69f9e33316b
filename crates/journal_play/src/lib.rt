//! A journal of one group and one session, played in memory: it takes records, settles after each,
//! and prints a line for each message.
#![tactic(auto)]

mod held;
mod kept;
mod laws;
mod lines;
mod play;

pub use laws::play_says;
pub use play::Play;
