//! A clock that only rises.
use std::time::{Clock, Instant};

/// The time since it was made, in milliseconds. Where the system tells no time it stands still.
#[derive(Drop)]
pub struct Stopwatch {
    start: Option<Instant>,
    last: u64,
}

impl Stopwatch {
    /// A clock that stands at 0.
    pub fn new(clock: &impl Clock) -> Stopwatch {
        Stopwatch {
            start: Instant::now(clock).ok(),
            last: 0,
        }
    }

    /// What it shows now: never less than before.
    pub fn now(&mut self, clock: &impl Clock) -> u64 {
        if let Some(start) = self.start {
            if let Ok(time) = start.elapsed(clock) {
                let time = u64::try_from(time.as_millis()).unwrap_or(u64::MAX);
                self.last = self.last.max(time);
            }
        }
        self.last
    }
}
