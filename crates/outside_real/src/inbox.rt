//! Bytes that were heard before they were asked for.
ghost use Rattle.std.specs.Prelude.{◌≡◌, ◌<◌, ◌≤◌, ◌↔◌, length, vec_len, IsTrue};

use crate::stream::Stream;
use std::alloc::Global;
use std::io;
use std::net::Net;

// How many bytes are kept before no more are read: 32 MiB, for eight links as much as a journal.
const MOST_KEPT: usize = 33_554_432;

// How many bytes are read at once.
const PIECE: usize = 65_536;

/// Bytes in the order in which they were heard: those from `at` to `end`.
#[derive(Drop)]
pub struct Inbox {
    bytes: Vec<u8>,
    at: usize,
    end: usize,
    ghost begins: { at ≤ end },
    ghost within: { end ≤ vec_len bytes },
}

impl Inbox {
    /// Nothing was heard.
    pub fn new(alloc: Global) -> Inbox {
        Inbox {
            bytes: Vec::new(alloc),
            at: 0,
            end: 0,
        }
    }

    /// Whether nothing is left.
    pub fn is_empty(&self) -> bool
        ensures { IsTrue result ↔ (self.now.at ≡ self.now.end) }
    {
        self.at == self.end
    }

    /// Whether no more is to be kept.
    pub fn is_full(&self) -> bool {
        self.end >= MOST_KEPT
    }

    /// Takes the first bytes, into the front of `buf`, and says how many.
    pub fn take(&mut self, buf: &mut [u8]) -> usize
        requires left { self.old.at < self.old.end }
        requires room { 0 < length buf.old }
        ensures some { 0 < result }
        ensures fits { result ≤ length buf.new }
    {
        let left = &self.bytes[self.at..self.end];
        let n = left.len().min(buf.len());
        buf[..n].copy_from_slice(&left[..n]);
        self.at += n;
        if self.at == self.end {
            self.at = 0;
            self.end = 0;
        }
        n
    }

    /// Reads once behind what is there.
    pub fn fill<R: Net>(&mut self, from: &mut Stream<R>) -> io::Result<()> {
        let room = self.end.saturating_add(PIECE);
        if self.bytes.len() < room {
            self.bytes.resize(room, 0)?;
        }
        let n = from.read(&mut self.bytes.as_mut_slice()[self.end..room])?;
        self.end += n;
        Ok(())
    }
}
