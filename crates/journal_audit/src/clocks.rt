//! For which time the messages stand in the sets of each contact.

use std::alloc::{AllocError, Global};

/// For each contact a time in milliseconds. Nothing is proved by it.
#[derive(Drop)]
pub(crate) struct Clocks {
    times: Vec<u64>,
}

/// How many contacts a byte tells apart.
const CONTACTS: usize = 256;

impl Clocks {
    /// All begin at 0.
    pub(crate) fn new(alloc: Global) -> Result<Clocks, AllocError> {
        Ok(Clocks {
            times: vec![in alloc; 0u64; CONTACTS]?,
        })
    }

    /// The time of a contact.
    pub(crate) fn of(&self, contact: u8) -> u64 {
        match self.times.get(contact as usize) {
            Some(time) => *time,
            None => 0,
        }
    }

    /// Sets the time of a contact.
    pub(crate) fn set(&mut self, contact: u8, time: u64) {
        if let Some(kept) = self.times.get_mut(contact as usize) {
            *kept = time;
        }
    }
}
