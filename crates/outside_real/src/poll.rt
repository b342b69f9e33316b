//! Waiting for many streams at once.
use crate::lock::pause;
use libc::net::{POLLERR, POLLHUP, POLLIN, POLLNVAL, POLLOUT};
use libc::types::pollfd;
use std::alloc::{AllocError, Global};
use std::time::Clock;

/// The number of the standard input.
pub const STANDARD_INPUT: i32 = 0;

/// The number of the standard output.
pub const STANDARD_OUTPUT: i32 = 1;

/// The number of the error output.
pub const ERROR_OUTPUT: i32 = 2;

/// What a stream that was waited for is ready for.
#[derive(Clone, Copy, Debug, PartialEq, Eq)]
pub struct Ready {
    /// A read answers at once.
    pub reads: bool,
    /// A write answers at once, also by failing.
    pub writes: bool,
    /// The other end has gone, or the stream has failed.
    pub gone: bool,
}

/// Streams that are waited for at once, in the order in which they were added.
#[derive(Drop)]
pub struct Waiting {
    streams: Vec<pollfd>,
}

impl Waiting {
    /// No streams.
    pub fn new(alloc: Global) -> Waiting {
        Waiting {
            streams: Vec::new(alloc),
        }
    }

    /// Forgets all streams.
    pub fn clear(&mut self) {
        self.streams.clear();
    }

    /// Adds the stream of this number, and says its place. Of one that is not to be waited for nothing
    /// is found but that it has gone. It fails only for want of memory.
    pub fn add(&mut self, number: i32, reads: bool, writes: bool) -> Result<usize, AllocError> {
        let place = self.streams.len();
        let reads = if reads { POLLIN } else { 0 };
        let writes = if writes { POLLOUT } else { 0 };
        self.streams.push(pollfd {
            fd: number,
            events: reads | writes,
            revents: 0,
        })?;
        Ok(place)
    }

    /// Waits until a stream is ready for what it was added for or has gone, or so many milliseconds
    /// are over, where that is said. Where the system answers nothing, no stream is ready.
    pub fn wait<R: Clock>(&mut self, clock: &R, most: Option<u32>) {
        let most = match most {
            Some(most) => i32::try_from(most).unwrap_or(i32::MAX),
            None => -1,
        };
        if libc::net::poll(self.streams.as_mut_slice(), most) < 0 {
            for stream in self.streams.iter_mut() {
                stream.revents = 0;
            }
            pause(clock);
        }
    }

    /// What the stream at this place is ready for.
    pub fn ready(&self, place: usize) -> Ready {
        let found = match self.streams.get(place) {
            Some(stream) => stream.revents,
            None => 0,
        };
        Ready {
            reads: has(found, POLLIN | POLLHUP | POLLERR | POLLNVAL),
            writes: has(found, POLLOUT | POLLHUP | POLLERR | POLLNVAL),
            gone: has(found, POLLHUP | POLLERR | POLLNVAL),
        }
    }
}

/// Whether a write to the stream of this number answers at once, also by failing.
pub fn takes_at_once(alloc: Global, clock: &impl Clock, number: i32) -> bool {
    let mut waiting = Waiting::new(alloc);
    match waiting.add(number, false, true) {
        Ok(place) => {
            waiting.wait(clock, Some(0));
            waiting.ready(place).writes
        }
        Err(AllocError) => false,
    }
}

fn has(found: i16, wanted: i16) -> bool {
    found & wanted != 0
}
