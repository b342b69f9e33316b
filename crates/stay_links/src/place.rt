//! The place of a link of this number.
ghost use Rattle.std.specs.Prelude.{◌<◌, length};
ghost use Rattle.outside_real.specs.Heard.{FitsBuffer};

use crate::line::Line;
use outside::{Failed, Heard};

/// What stands at the number of a link.
#[derive(Drop)]
pub enum Place {
    /// A line.
    Open(Line),
    /// A line that has failed.
    Broken,
    /// No line, or none any more.
    Over,
}

impl Place {
    /// The number of its stream; -1 where there is none.
    pub fn number(&self) -> i32 {
        match self {
            Place::Open(line) => line.number(),
            Place::Broken | Place::Over => -1,
        }
    }

    /// Whether nothing waits to go out.
    pub fn is_clear(&self) -> bool {
        match self {
            Place::Open(line) => line.is_clear(),
            Place::Broken | Place::Over => true,
        }
    }

    /// Hears what is there, into the front of `buf`.
    pub fn hear(&mut self, buf: &mut [u8]) -> Heard
        requires { 0 < length buf.old }
        ensures { FitsBuffer (length buf.new) result }
    {
        let heard = match self {
            Place::Open(line) => line.hear(buf),
            Place::Broken => Heard::Failed,
            Place::Over => Heard::End,
        };
        if matches!(heard, Heard::Failed) {
            *self = Place::Broken;
        }
        heard
    }

    /// Sends all bytes; a line that can't has failed.
    pub fn send(&mut self, bytes: &[u8]) -> Result<(), Failed> {
        let Place::Open(line) = self else {
            return Err(Failed);
        };
        if line.send(bytes).is_err() {
            *self = Place::Broken;
            return Err(Failed);
        }
        Ok(())
    }

    /// Lets the stream take some of what waits; a line whose stream can't has failed.
    pub fn write_some(&mut self, now: u64) {
        let Place::Open(line) = self else {
            return;
        };
        if line.write_some(now).is_err() {
            *self = Place::Broken;
        }
    }

    /// Whether something waits that did not move for half a minute.
    pub fn is_stuck(&self, now: u64) -> bool {
        match self {
            Place::Open(line) => line.is_stuck(now),
            Place::Broken | Place::Over => false,
        }
    }

    /// Ends the line on this side. What waits goes out as far as the stream takes it now.
    pub fn end(&mut self) {
        if let Place::Open(line) = self {
            line.end();
        }
        *self = Place::Over;
    }
}
