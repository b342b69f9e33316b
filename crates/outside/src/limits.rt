//! Limits of links and of a journal's files.

/// How many links a host makes at most.
pub const LINKS: usize = 8;

/// The length of the longest journal, in bytes: no frame reaches past it.
pub const MAX_JOURNAL: u64 = 268_435_456;

/// The length of a frame's longest payload, in bytes; the shortest has one byte.
pub const MAX_FRAME: u32 = 65_536;
