//! A line to a peer.
ghost use Rattle.std.specs.Prelude.{◌<◌, length};
ghost use Rattle.outside_real.specs.Heard.{FitsBuffer};

use crate::stream::{Stream, is_pause};
use outbox::Outbox;
use outside::Heard;
use std::alloc::Global;
use std::io;

// How long a peer has to take some of what waits for it, in milliseconds.
const STUCK_MILLISECONDS: u64 = 30_000;

// How much of what nobody heard is taken at the end, in reads of so many bytes.
const MOST_READS: u32 = 64;

const READ_BYTES: usize = 16_384;

/// A stream to a peer, and the bytes that wait until it takes them. No call waits.
#[derive(Drop)]
pub struct Line {
    stream: Stream,
    outbox: Outbox,
    moved: Option<u64>,
}

impl Line {
    /// A line over this stream, on which nothing waits.
    pub(crate) fn new(alloc: Global, stream: Stream) -> Line {
        Line {
            stream,
            outbox: Outbox::new(alloc),
            moved: None,
        }
    }

    /// The number of its stream.
    pub fn number(&self) -> i32 {
        self.stream.number()
    }

    /// Whether nothing waits to go out.
    pub fn is_clear(&self) -> bool {
        self.outbox.is_empty()
    }

    /// Hears what is there, into the front of `buf`; a stream that was reset has failed.
    pub(crate) fn hear(&mut self, buf: &mut [u8]) -> Heard
        requires { 0 < length buf.old }
        ensures { FitsBuffer (length buf.new) result }
    {
        match self.stream.read(buf) {
            Ok(0) => Heard::End,
            Ok(n) => Heard::Got(n),
            Err(e) if is_pause(&e) => Heard::Idle,
            Err(_) => Heard::Failed,
        }
    }

    /// Sends all bytes: what the stream does not take now waits. It fails where the stream has failed
    /// or no memory is found, and then a front of the bytes may have gone out.
    pub(crate) fn send(&mut self, bytes: &[u8]) -> io::Result<()> {
        let mut left = bytes;
        if self.outbox.is_empty() {
            let n = self.stream.write(bytes)?;
            left = &bytes[n..];
        }
        self.outbox.push(left)?;
        Ok(())
    }

    /// Lets the stream take some of what waits, at this reading of a clock.
    pub(crate) fn write_some(&mut self, now: u64) -> io::Result<()> {
        if self.outbox.is_empty() {
            self.moved = None;
            return Ok(());
        }
        let n = self.stream.write(self.outbox.front())?;
        self.outbox.pass(n);
        let still = match self.moved {
            Some(moved) => n == 0 && moved <= now,
            None => false,
        };
        if !still {
            self.moved = Some(now);
        }
        Ok(())
    }

    /// Whether something waits of which nothing went out for half a minute before this reading of the
    /// clock, as `write_some` saw it.
    pub(crate) fn is_stuck(&self, now: u64) -> bool {
        match self.moved {
            Some(moved) => {
                !self.outbox.is_empty() && now.saturating_sub(moved) >= STUCK_MILLISECONDS
            }
            None => false,
        }
    }

    /// Writes what the stream takes of what waits, and takes what nobody heard: else the peer would see
    /// a failure in place of the end.
    pub(crate) fn end(&mut self) {
        let _ = self.write_some(0);
        let mut unheard = [0u8; READ_BYTES];
        for _ in 0..MOST_READS {
            match self.stream.read(&mut unheard) {
                Ok(0) | Err(_) => break,
                Ok(_) => {}
            }
        }
    }
}
