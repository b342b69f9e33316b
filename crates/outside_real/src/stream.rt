//! The stream of a socket, of either kind.
ghost use Rattle.std.specs.Io.{ReadsAtMost, WritesAtMost};

use std::io;
use std::io::{Read, Write};
use std::net::{Net, OpenStream};
use std::os::unix::net::UnixStream;
use std::time::Duration;

/// A stream over TCP or over a Unix socket of this machine.
#[derive(Drop)]
pub enum Stream<R: Net> {
    /// Over TCP.
    Tcp(R::Stream),
    /// Over a Unix socket.
    Unix(UnixStream),
}

impl<R: Net> Stream<R> {
    /// Lets each read and each write wait so long at most.
    pub fn set_waits(&self, read: Duration, write: Duration) -> io::Result<()> {
        match self {
            Stream::Tcp(stream) => {
                stream.set_read_timeout(Some(read))?;
                stream.set_write_timeout(Some(write))
            }
            Stream::Unix(stream) => {
                stream.set_read_timeout(Some(read))?;
                stream.set_write_timeout(Some(write))
            }
        }
    }

    /// Lets no read and no write wait, or all as it was set.
    pub fn set_nonblocking(&self, nonblocking: bool) -> io::Result<()> {
        match self {
            Stream::Tcp(stream) => stream.set_nonblocking(nonblocking),
            Stream::Unix(stream) => stream.set_nonblocking(nonblocking),
        }
    }

    /// Reads once into the front of `buf`, and says how many bytes; none at the end.
    pub fn read(&mut self, buf: &mut [u8]) -> io::Result<usize>
        ensures { ReadsAtMost result buf.new }
    {
        match self {
            Stream::Tcp(stream) => stream.read(buf),
            Stream::Unix(stream) => stream.read(buf),
        }
    }

    /// Writes a front of the bytes, and says how many. A peer that has gone is an error, and no
    /// signal.
    pub fn write(&mut self, bytes: &[u8]) -> io::Result<usize>
        ensures { WritesAtMost result bytes.now }
    {
        match self {
            Stream::Tcp(stream) => stream.write(bytes),
            Stream::Unix(stream) => stream.write(bytes),
        }
    }
}
