//! What is due at a call of a disk in memory.

/// What the next call of the disk comes to, if there is memory for it.
#[derive(Clone, Copy)]
pub enum Due {
    /// It is made.
    Fine,
    /// It fails, and may have reached the disk.
    Failure,
    /// It fails and leaves no trace, as all calls behind it.
    Stop,
}
