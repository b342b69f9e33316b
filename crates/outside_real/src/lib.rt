//! The trusted edge: the disk, the clock and the streams of this machine behind the traits of
//! `outside`. Its objects tell their counts of failures, and not what a file, a link or a stream
//! holds. That the files of a store are written by one process at a time is kept by locks, among the
//! processes that make their host by `FileHost::with`. The disk is taken to be honest: a sync that
//! succeeds leaves the bytes and the length of a file, and the folder's sync its name, whatever
//! comes.
#![tactic(auto)]

mod ahead;
mod cause;
mod control;
mod copying;
mod early;
mod file_host;
mod inbox;
mod link;
mod lock;
mod need;
mod opening;
mod pages;
mod poll;
mod random;
mod real_file;
mod size_limit;
mod socket;
mod speaker;
mod spec;
mod stand;
mod standard;
mod std_link;
mod stopwatch;
mod store_file;
mod stream;
mod streams;
mod tcp_link;
mod unix_link;

pub use cause::{Cause, Unmet};
pub use control::{Asker, ControlSocket, SOCKET_NAME};
pub use early::EarlySource;
pub use file_host::FileHost;
pub use lock::{Lock, Turn, pause};
pub use need::Need;
pub use poll::{ERROR_OUTPUT, Ready, STANDARD_INPUT, STANDARD_OUTPUT, Waiting, takes_at_once};
pub use random::random_bytes;
pub use speaker::Speaker;
pub use spec::{Spec, read_spec};
pub use stand::{Node, Standing, remove, stand_at};
pub use standard::{StandardNumbers, hold_standard_numbers};
pub use stopwatch::Stopwatch;
pub use streams::{StdSink, StdSource};
