//! The two ends of a connection.
use crate::control::Asker;
use crate::poll::{STANDARD_INPUT, STANDARD_OUTPUT};
use crate::streams::{read_once, write_once};
use outside::Heard;
use std::io;
use std::io::{Read, Write};

// How many bytes a standard output gets at once at most: as many as a pipe takes at once that takes any.
const MOST_WRITTEN: usize = 4_096;

// The number of no stream.
const NO_STREAM: i32 = -1;

/// Whom a connection goes to.
#[derive(Drop)]
pub enum Speaker<I: Read + Drop, O: Write + Drop> {
    /// Who wrote the standard input, and reads the standard output. These streams are shared with
    /// others, so a call may wait where nothing is ready.
    Standard(I, O),
    /// Who came to the socket.
    Socket(Asker),
}

impl<I: Read + Drop, O: Write + Drop> Speaker<I, O> {
    /// Whether it is the standard streams.
    pub fn is_standard(&self) -> bool {
        matches!(self, Speaker::Standard(_, _))
    }

    /// The number of what is read, where it is to be waited for. That a socket has gone is always waited
    /// for.
    pub fn input_number(&self, is_wanted: bool) -> i32 {
        match self {
            Speaker::Standard(_, _) if is_wanted => STANDARD_INPUT,
            Speaker::Standard(_, _) => NO_STREAM,
            Speaker::Socket(asker) => asker.number(),
        }
    }

    /// The number of what is written to, where it is to be waited for.
    pub fn output_number(&self, is_wanted: bool) -> i32 {
        match self {
            _ if !is_wanted => NO_STREAM,
            Speaker::Standard(_, _) => STANDARD_OUTPUT,
            Speaker::Socket(asker) => asker.number(),
        }
    }

    /// Reads once, into the front of `buf`.
    pub fn read(&mut self, buf: &mut [u8]) -> Heard {
        match self {
            Speaker::Standard(input, _) => match read_once(input, buf) {
                Ok(0) => Heard::End,
                Ok(n) => Heard::Got(n),
                Err(_) => Heard::Failed,
            },
            Speaker::Socket(asker) => asker.read(buf),
        }
    }

    /// Writes a front of the bytes, and says how many.
    pub fn write(&mut self, bytes: &[u8]) -> io::Result<usize> {
        match self {
            Speaker::Standard(_, out) => write_once(out, &bytes[..bytes.len().min(MOST_WRITTEN)]),
            Speaker::Socket(asker) => asker.write(bytes),
        }
    }
}
