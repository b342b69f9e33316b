//! The stream of a node that hears.
ghost use Rattle.std.specs.Prelude.{◌+◌, ◌<◌, ◌≤◌, length, IfOk, IfSome};

use crate::lines::{Line, MOST_LINE, line_of};
use outside::{Sink, write_all};
use std::alloc::{AllocError, Global};
use std::io;
use std::io::{ErrorKind, Read, Write};
use std::os::unix::net::UnixStream;

// How many bytes are read at once.
const PIECE: usize = 65_536;

/// What became of bytes that were to be copied.
#[derive(Clone, Copy, Debug, PartialEq, Eq)]
pub enum Copied {
    /// All were.
    Whole,
    /// A front, of so many bytes: the connection ended.
    Ended(u64),
    /// A front: the sink failed.
    Unwritten,
}

/// The stream of a node that hears, and what was read of it ahead.
#[derive(Drop)]
pub struct Wire {
    stream: UnixStream,
    bytes: Vec<u8>,
    at: usize,
}

impl Wire {
    /// The stream of a node that said that it hears; none where the system lets it not wait.
    pub fn new(alloc: Global, stream: UnixStream) -> Result<Option<Wire>, AllocError> {
        if stream.set_read_timeout(None).is_err() {
            return Ok(None);
        }
        Ok(Some(Wire {
            stream,
            bytes: Vec::with_capacity(alloc, PIECE)?,
            at: 0,
        }))
    }

    /// Writes all bytes; whether that did not fail.
    pub fn write(&mut self, bytes: &[u8]) -> bool {
        let mut done = 0;
        'pieces: while done < bytes.len() {
            match write_once(&mut self.stream, &bytes[done..]) {
                Ok(n) => done += n,
                Err(_) => return false,
            }
        }
        true
    }

    /// The next line; none where the connection ends before it, or where what comes is none.
    pub fn line(&mut self) -> Option<Line> {
        let mut line = [0u8; MOST_LINE];
        for n in 0..=MOST_LINE {
            let byte = self.byte()?;
            if byte == b'\n' {
                return line_of(&line[..n]);
            }
            if n == MOST_LINE {
                break;
            }
            line[n] = byte;
        }
        None
    }

    // The next byte, if there is one.
    fn byte(&mut self) -> Option<u8> {
        match self.ready(1) {
            Some(_) => {
                let byte = self.bytes.as_slice()[self.at];
                self.at += 1;
                Some(byte)
            }
            None => None,
        }
    }

    // Reads ahead once all was taken. Where nothing comes nothing stands ready.
    fn fill(&mut self) {
        self.at = 0;
        self.bytes.clear();
        if self.bytes.resize(PIECE, 0).is_err() {
            self.bytes.clear();
            return;
        }
        match read_once(&mut self.stream, self.bytes.as_mut_slice()) {
            Ok(n) => self.bytes.truncate(n),
            Err(_) => self.bytes.clear(),
        }
    }

    // How many bytes stand ready, at most so many; none where the connection ended.
    fn ready(&mut self, most: u64) -> Option<usize>
        requires { 0 < most }
        ensures within { IfSome result (λ n. self.new.at + n ≤ length self.new.bytes.items) }
        ensures some { IfSome result (λ n. 0 < n) }
        ensures most { IfSome result (λ n. n ≤ most) }
    {
        if self.at >= self.bytes.len() {
            self.fill();
        }
        if self.at >= self.bytes.len() {
            return None;
        }
        let left = self.bytes.len() - self.at;
        Some(most.min(left as u64) as usize)
    }

    /// Copies the next bytes, so many of them, to a sink.
    pub fn copy<S: Sink>(&mut self, count: u64, to: &mut S) -> Copied {
        let mut done = 0;
        'pieces: while done < count {
            let Some(n) = self.ready(count - done) else {
                return Copied::Ended(done);
            };
            let end = self.at + n;
            if write_all(to, &self.bytes.as_slice()[self.at..end]).is_err() {
                return Copied::Unwritten;
            }
            self.at = end;
            done += n as u64;
        }
        Copied::Whole
    }

    /// Passes over the next bytes; whether they came.
    pub fn pass(&mut self, count: u64) -> bool {
        let mut done = 0;
        'pieces: while done < count {
            let Some(n) = self.ready(count - done) else {
                return false;
            };
            self.at += n;
            done += n as u64;
        }
        true
    }
}

// A read that no signal interrupted.
fn read_once(from: &mut UnixStream, buf: &mut [u8]) -> io::Result<usize>
    ensures { IfOk result (λ n. n ≤ length buf.new) }
{
    for _ in 0..u64::MAX {
        match from.read(buf) {
            Err(e) if e.kind() == ErrorKind::Interrupted => {}
            answer => return answer,
        }
    }
    Err(ErrorKind::Interrupted.into())
}

// A write that no signal interrupted. One that took nothing has failed.
fn write_once(to: &mut UnixStream, bytes: &[u8]) -> io::Result<usize>
    ensures bound { IfOk result (λ n. n ≤ length bytes.now) }
    ensures some { 0 < length bytes.now → IfOk result (λ n. 0 < n) }
{
    for _ in 0..u64::MAX {
        match to.write(bytes) {
            Ok(0) if !bytes.is_empty() => return Err(ErrorKind::WriteZero.into()),
            Err(e) if e.kind() == ErrorKind::Interrupted => {}
            answer => return answer,
        }
    }
    Err(ErrorKind::Interrupted.into())
}
