//! Streams of bytes: what is read from and what is written to.
ghost use Rattle.std.specs.Prelude.{◌<◌, ◌≤◌, length, IfOk};
ghost use Rattle.std.specs.Io.KnownBytes.{ReadConsumes, WriteAppends};
ghost use Rattle.outside.specs.Faults.{HasCause};
ghost use Rattle.outside.specs.Streams.{Stream};

use crate::Failed;

/// What bytes are read from.
pub trait Source {
    /// The bytes left, where the source tells them, and how often a call failed.
    ghost tells: { Self → Stream };

    /// Reads into the front of `buf` and says how many bytes; 0 for a non-empty buffer is the end.
    fn read(&mut self, buf: &mut [u8]) -> Result<usize, Failed>
        ensures bound { IfOk result (λ n. n ≤ length buf.new) }
        ensures bytes { ReadConsumes (tells self.old).bytes (tells self.new).bytes result buf.new }
        ensures cause { HasCause (tells self.old).faults (tells self.new).faults result };
}

/// What bytes are written to.
pub trait Sink {
    /// The bytes written so far, where the sink tells them, and how often a call failed.
    ghost tells: { Self → Stream };

    /// Takes the front of `bytes` and says how many: at least one, unless there are none.
    fn write(&mut self, bytes: &[u8]) -> Result<usize, Failed>
        ensures bound { IfOk result (λ n. n ≤ length bytes.now) }
        ensures some { 0 < length bytes.now → IfOk result (λ n. 0 < n) }
        ensures bytes { WriteAppends (tells self.old).bytes (tells self.new).bytes result
            bytes.now }
        ensures cause { HasCause (tells self.old).faults (tells self.new).faults result };
}
