//! The calls that changed a disk or a host in memory.

use crate::Reply;

/// A call that changed something. A disk in memory keeps all of them, so that it can tell what was
/// possible at each moment, and what a crash may leave.
#[derive(Drop)]
pub enum Call {
    /// Bytes were written to a file from a place on.
    Wrote(u8, u64, Vec<u8>),
    /// The same, but the call failed.
    WroteNot(u8, u64, Vec<u8>),
    /// A file was cut to a length.
    Cut(u8, u64),
    /// The same, but the call failed.
    CutNot(u8, u64),
    /// A file was synced.
    Synced(u8),
    /// A link was made with a spec.
    Dialled(Vec<u8>),
    /// Bytes went out on a link.
    Sent(u8, Vec<u8>),
    /// A link answered: how many of its calls failed since the answer before, and the room there
    /// was.
    Answered(u8, u64, usize, Reply),
    /// A host was made over the disk; it has no links.
    Hosted,
}
