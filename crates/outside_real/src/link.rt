//! A link of whichever kind.
ghost use Rattle.std.specs.Prelude.{◌<◌, length};
ghost use Rattle.outside_real.specs.Heard.{FitsBuffer};

use crate::socket::Socket;
use crate::spec::{Spec, read_spec};
use crate::stream::Stream;
use crate::{std_link, tcp_link, unix_link};
use outside::{Failed, Heard};
use std::alloc::Global;
use std::io;
use std::io::ErrorKind;
use std::net::Net;
use std::rt::Runtime;

/// A link to a peer.
#[derive(Drop)]
pub enum Link<R: Runtime + Net> {
    /// Over the standard input and output.
    Std(R::Reader),
    /// Over a socket.
    Socket(Socket<R>),
    /// It was hung up.
    Over,
}

impl<R: Runtime + Net> Link<R> {
    /// Makes the link that a spec names.
    pub fn dial(rt: &R, alloc: Global, spec: &str) -> io::Result<Link<R>> {
        let stream = match read_spec(spec) {
            Some(Spec::Std) => return Ok(Link::Std(rt.reader())),
            Some(Spec::Tcp(place)) => Stream::Tcp(tcp_link::connect(rt, place)?),
            Some(Spec::Listen(place)) => Stream::Tcp(tcp_link::listen(rt, place)?),
            Some(Spec::Unix(path)) => Stream::Unix(unix_link::connect(rt, path)?),
            Some(Spec::UnixListen(path)) => Stream::Unix(unix_link::listen(rt, alloc, path)?),
            None => return Err(ErrorKind::InvalidInput.into()),
        };
        Ok(Link::Socket(Socket::new(alloc, stream)?))
    }

    /// Hears on the link, into the front of `buf`.
    pub fn hear(&mut self, buf: &mut [u8]) -> Heard
        requires { 0 < length buf.old }
        ensures { FitsBuffer (length buf.new) result }
    {
        match self {
            Link::Std(from) => std_link::hear(from, buf),
            Link::Socket(socket) => socket.hear(buf),
            Link::Over => Heard::Failed,
        }
    }

    /// Sends all bytes on the link.
    pub fn send(&mut self, rt: &R, bytes: &[u8]) -> Result<(), Failed> {
        match self {
            Link::Std(_) => std_link::send(rt, bytes),
            Link::Socket(socket) => socket.send(rt, bytes).map_err(|_| Failed),
            Link::Over => Err(Failed),
        }
    }
}
