//! Limits of a node.

/// How many links a node takes up at most beside one store: their numbers are a byte's.
pub const MOST_LINKS: usize = 255;
