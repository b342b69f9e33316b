//! Bytes of a file that were read ahead.
ghost use Rattle.std.specs.Prelude.{◌≤◌, length};

use crate::streams::read_full;
use std::alloc::{AllocError, Global};
use std::io;
use std::io::Read;

/// How many bytes are read ahead at most.
pub const AHEAD: usize = 262_144;

/// The bytes of a file from a place on, as they were read.
#[derive(Drop)]
pub struct Ahead {
    at: u64,
    bytes: Vec<u8>,
}

impl Ahead {
    /// Nothing was read ahead.
    pub fn new(alloc: Global) -> Ahead {
        Ahead {
            at: 0,
            bytes: Vec::new(alloc),
        }
    }

    /// As `new`, with all memory that reads need.
    pub fn with_room(alloc: Global) -> Result<Ahead, AllocError> {
        Ok(Ahead {
            at: 0,
            bytes: Vec::with_capacity(alloc, AHEAD)?,
        })
    }

    /// Forgets what was read ahead.
    pub fn clear(&mut self) {
        self.bytes.clear();
    }

    /// Copies the bytes from place `at` on into the front of `buf`, as far as they were read ahead,
    /// and says how many.
    pub fn copy(&self, at: u64, buf: &mut [u8]) -> usize
        ensures { result ≤ length buf.new }
    {
        if at < self.at || at - self.at >= self.bytes.len() as u64 {
            return 0;
        }
        let part = &self.bytes[(at - self.at) as usize..];
        let n = part.len().min(buf.len());
        buf[..n].copy_from_slice(&part[..n]);
        n
    }

    /// Forgets the bytes before place `at`, or all where none was read ahead from there on; says
    /// the place of the next byte to be read ahead.
    pub fn begin_at(&mut self, at: u64) -> u64 {
        let had = self.bytes.len();
        let kept = if at < self.at || at - self.at >= had as u64 {
            0
        } else {
            had - (at - self.at) as usize
        };
        self.bytes.as_mut_slice().copy_within(had - kept.., 0);
        self.bytes.truncate(kept);
        self.at = at;
        at.saturating_add(kept as u64)
    }

    /// Reads ahead behind those that are kept, until there are `size` of them or nothing is left,
    /// and says the place behind them. After an error nothing is read ahead.
    pub fn fill<F: Read>(&mut self, from: &mut F, size: usize) -> io::Result<u64> {
        let had = self.bytes.len();
        self.bytes.resize(size.max(had), 0)?;
        match read_full(from, &mut self.bytes.as_mut_slice()[had..]) {
            Ok(n) => {
                self.bytes.truncate(had + n);
                Ok(self.at.saturating_add((had + n) as u64))
            }
            Err(e) => {
                self.bytes.clear();
                Err(e)
            }
        }
    }
}
