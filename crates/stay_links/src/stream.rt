//! The stream of a socket, of either kind. No call waits.
ghost use Rattle.std.specs.Io.{ReadsAtMost, WritesAtMost};

use mio::net::{TcpStream, UnixStream};
use std::io;
use std::io::{ErrorKind, Read, Write};
use std::os::fd::AsRawFd;

/// A stream over TCP or over a Unix socket of this machine.
#[derive(Drop)]
pub enum Stream {
    /// Over TCP.
    Tcp(TcpStream),
    /// Over a Unix socket.
    Unix(UnixStream),
}

impl Stream {
    /// Its number.
    pub fn number(&self) -> i32 {
        match self {
            Stream::Tcp(stream) => stream.as_raw_fd(),
            Stream::Unix(stream) => stream.as_raw_fd(),
        }
    }

    /// Reads once what is there, into the front of `buf`, and says how many bytes; none at the end.
    pub fn read(&mut self, buf: &mut [u8]) -> io::Result<usize>
        ensures { ReadsAtMost result buf.new }
    {
        match self {
            Stream::Tcp(stream) => stream.read(buf),
            Stream::Unix(stream) => stream.read(buf),
        }
    }

    /// Writes a front of the bytes, and says how many: none where they are not taken now. A peer that
    /// has gone is an error, and no signal.
    pub fn write(&mut self, bytes: &[u8]) -> io::Result<usize>
        ensures { WritesAtMost result bytes.now }
    {
        let answer = match self {
            Stream::Tcp(stream) => stream.write(bytes),
            Stream::Unix(stream) => stream.write(bytes),
        };
        match answer {
            Err(e) if is_pause(&e) => Ok(0),
            answer => answer,
        }
    }
}

/// Whether a call that does not wait answered nothing for now.
pub fn is_pause(e: &io::Error) -> bool {
    matches!(e.kind(), ErrorKind::WouldBlock | ErrorKind::Interrupted)
}
