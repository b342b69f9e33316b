//! Frames of a journal in one of the two files of a disk: each is added whole or not at all.
#![tactic(auto)]

mod fault;
mod frame;
mod gates;
mod gathering;
mod group;
mod header;
mod journal;

pub use fault::{DiskFault, FrameFault, StartFault};
pub use gates::{
    barrier, clear, clear_back, create, cut_back, prepare, publish, shorten, shut_gate,
};
pub use group::{Group, MAX_GROUP};
pub use header::{FIRST_FORMAT, Header, SECOND_FORMAT, is_format, read_header};
pub use journal::Journal;
