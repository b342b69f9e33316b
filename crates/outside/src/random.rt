//! A random source in memory.

use std::io;
use std::random::RandomSource;

/// A source that fills a buffer with one byte, so that what is drawn from it is known beforehand.
#[derive(Clone, Copy, Debug, PartialEq, Eq)]
pub struct MemRandom(pub u8);

impl RandomSource for MemRandom {
    fn fill_bytes(&self, buf: &mut [u8]) -> io::Result<()> {
        buf.fill(self.0);
        Ok(())
    }
}
