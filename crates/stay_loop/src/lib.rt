//! The loop of a node that stays: it waits until somebody comes, writes or reads, on a connection or a
//! link; answers one request at a time, gives each link its turn, and tells what was delivered.
//!
//! - `life`: from the load to the end.
//! - `service`: the node with all that it has; how it waits.
//! - `holder`: what is asked, and what it says; `keeper`: the node itself, over the files of this machine,
//!   and its sessions.
//! - `talk`: the connections: who comes, what is read and written.
//! - `answering`: how who asks is attended to; `asking`: what he may ask beside commands.
//! - `spots`: the places of the words where links come and go; `lines`: what `status` tells of them.
//! - `coming`: how links come up; `turning`: their turns and ends; `eras`: how all end at once.
//! - `log`: the error output; `last`: what is told at the end.
#![tactic(auto)]

mod answering;
mod asking;
mod coming;
mod eras;
mod holder;
mod keeper;
mod last;
mod life;
mod lines;
mod log;
mod service;
mod spots;
mod talk;
mod turning;

pub use life::{Course, stay};
