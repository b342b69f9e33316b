//! Where to look first.

use std::alloc::{AllocError, Global};

/// From where on the dependencies of messages are looked through, and in which order the bad messages
/// are counted. Nothing is proved by them.
#[derive(Drop)]
pub(crate) struct Hints {
    // For each held message how many of its first dependencies were served when it was last looked at.
    counts: Vec<u8>,
    // The numbers of the invalid messages, in the order of their entries.
    refused: Vec<u32>,
}

impl Hints {
    /// No messages.
    pub(crate) fn new(alloc: Global) -> Hints {
        Hints {
            counts: Vec::new(alloc),
            refused: Vec::new(alloc),
        }
    }

    /// One message more.
    pub(crate) fn add(&mut self) -> Result<(), AllocError> {
        self.counts.push(0)?;
        Ok(())
    }

    /// The count of a message.
    pub(crate) fn of(&self, n: u32) -> usize {
        match self.counts.get(n as usize) {
            Some(count) => usize::from(*count),
            None => 0,
        }
    }

    /// Sets the count of a message, at most 255.
    pub(crate) fn set(&mut self, n: u32, count: usize) {
        if let Some(kept) = self.counts.get_mut(n as usize) {
            *kept = count.min(255) as u8;
        }
    }

    /// A message is invalid.
    pub(crate) fn note_invalid(&mut self, n: u32) -> Result<(), AllocError> {
        self.refused.push(n)?;
        Ok(())
    }

    /// The numbers of the invalid messages, in the order of their entries.
    pub(crate) fn refused(&self) -> &[u32] {
        self.refused.as_slice()
    }
}
