//! A socket that listens for one peer after the other.
use crate::addresses::addresses_of;
use crate::stream::{Stream, is_pause};
use mio::net::{TcpListener, UnixListener};
use outside_real::{Node, Standing, remove, stand_at};
use std::alloc::Global;
use std::io;
use std::io::ErrorKind;
use std::net::{Net, SocketAddr};
use std::os::fd::AsRawFd;
use std::rt::Files;

// How many peers who come at once wait as the system has them wait.
const BACKLOG: i32 = 16;

// How many peers are let in at once to find the newest.
const MOST_AT_ONCE: u32 = 64;

/// A socket that listens.
#[derive(Drop)]
pub enum Listening {
    /// Over TCP.
    Tcp(TcpListener),
    /// At a path, with its file.
    Unix(UnixListener, Node),
}

impl Listening {
    /// Listens at `HOST:PORT`, at the first of the host's addresses where that can be.
    pub fn tcp<R: Net>(net: &R, alloc: Global, place: &str) -> io::Result<Listening> {
        let mut last = io::Error::from(ErrorKind::InvalidInput);
        for address in addresses_of(net, alloc, place)?.iter() {
            match bound(net, *address) {
                Ok(listener) => return Ok(Listening::Tcp(listener)),
                Err(e) => last = e,
            }
        }
        Err(last)
    }

    /// Listens at a path. A socket of this user that stands there and at which nobody answers is taken
    /// away; anything else is left alone, and the call fails (`AlreadyExists`).
    pub fn unix<R: Files + Net>(rt: &R, alloc: Global, path: &str) -> io::Result<Listening> {
        let Standing { listener, node } = stand_at(rt, alloc, path)?;
        if let Err(e) = listener.set_nonblocking(true) {
            remove(rt, path, node);
            return Err(e);
        }
        Ok(Listening::Unix(UnixListener::from_std(listener), node))
    }

    /// Its number.
    pub fn number(&self) -> i32 {
        match self {
            Listening::Tcp(listener) => listener.as_raw_fd(),
            Listening::Unix(listener, _) => listener.as_raw_fd(),
        }
    }

    /// The newest of the peers that came, if one did; those before it are turned away. It fails where
    /// none can be had, and listens still.
    pub fn newest(&self) -> io::Result<Option<Stream>> {
        let mut newest = None;
        for _ in 0..MOST_AT_ONCE {
            match self.next() {
                Ok(Some(stream)) => newest = Some(stream),
                Err(e) if newest.is_none() => return Err(e),
                Ok(None) | Err(_) => break,
            }
        }
        Ok(newest)
    }

    // The next peer, if one came.
    fn next(&self) -> io::Result<Option<Stream>> {
        match self.accepted() {
            Ok(stream) => Ok(Some(stream)),
            Err(e) if is_pause(&e) || e.kind() == ErrorKind::ConnectionAborted => Ok(None),
            Err(e) => Err(e),
        }
    }

    // The next peer. Over TCP each send is a whole record, so it goes out at once.
    fn accepted(&self) -> io::Result<Stream> {
        match self {
            Listening::Tcp(listener) => {
                let (stream, _) = listener.accept()?;
                stream.set_nodelay(true)?;
                Ok(Stream::Tcp(stream))
            }
            Listening::Unix(listener, _) => {
                let (stream, _) = listener.accept()?;
                Ok(Stream::Unix(stream))
            }
        }
    }

    /// Listens no more. The file at the path is taken away; what somebody put in its place meanwhile is
    /// not.
    pub fn close<R: Files>(self, rt: &R, path: &str) {
        // The socket is open until then, so no other file has its inode.
        if let Listening::Unix(_, node) = &self {
            remove(rt, path, *node);
        }
    }
}

// A socket that listens at an address, for few who wait.
fn bound<R: Net>(net: &R, address: SocketAddr) -> io::Result<TcpListener> {
    let listener = TcpListener::bind(net, address)?;
    let _ = libc::net::listen(listener.as_raw_fd(), BACKLOG);
    Ok(listener)
}
