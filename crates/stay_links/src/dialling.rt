//! A dial that is under way.
use crate::addresses::addresses_of;
use crate::stream::Stream;
use mio::net::{TcpStream, UnixStream};
use outside_real::Stopwatch;
use std::alloc::Global;
use std::io;
use std::io::ErrorKind;
use std::net::{Net, SocketAddr};
use std::os::fd::AsRawFd;
use std::time::Clock;

// How long a peer has to answer at one address, in milliseconds.
const ANSWER_MILLISECONDS: u64 = 20_000;

/// What is found of a dial.
#[derive(Drop)]
pub enum Found {
    /// The peer has answered.
    Reached(Stream),
    /// It is under way still.
    Waits(Dialling),
}

/// A dial that is under way.
#[derive(Drop)]
pub enum Dialling {
    /// Over TCP.
    Tcp(TcpDial),
    /// Over a Unix socket, whose peer has answered at once.
    Unix(UnixStream),
}

impl Dialling {
    /// Begins to dial the peer that listens at `HOST:PORT`.
    pub fn tcp<R: Net + Clock>(rt: &R, alloc: Global, place: &str) -> io::Result<Dialling> {
        let addresses = addresses_of(rt, alloc, place)?;
        Ok(Dialling::Tcp(TcpDial::begin(rt, addresses, 0)?))
    }

    /// Dials the peer that listens at a path.
    pub fn unix<R: Net>(rt: &R, path: &str) -> io::Result<Dialling> {
        Ok(Dialling::Unix(UnixStream::connect(rt, path)?))
    }

    /// The number of its stream.
    pub fn number(&self) -> i32 {
        match self {
            Dialling::Tcp(dial) => dial.stream.as_raw_fd(),
            Dialling::Unix(stream) => stream.as_raw_fd(),
        }
    }

    /// What is found of it now. It fails where the peer can't be reached at any of its addresses.
    pub fn found<R: Net + Clock>(self, rt: &R) -> io::Result<Found> {
        match self {
            Dialling::Tcp(dial) => dial.found(rt),
            Dialling::Unix(stream) => Ok(Found::Reached(Stream::Unix(stream))),
        }
    }
}

/// A dial over TCP at one of the peer's addresses; those behind it are dialled where it fails.
#[derive(Drop)]
pub struct TcpDial {
    stream: TcpStream,
    addresses: Vec<SocketAddr>,
    place: usize,
    watch: Stopwatch,
}

impl TcpDial {
    // Begins at the first address from this place on at which that can be.
    fn begin<R: Net + Clock>(
        rt: &R,
        addresses: Vec<SocketAddr>,
        from: usize,
    ) -> io::Result<TcpDial> {
        let (stream, place) = connect_from(rt, addresses.as_slice(), from)?;
        Ok(TcpDial {
            stream,
            addresses,
            place,
            watch: Stopwatch::new(rt),
        })
    }

    // What is found of it now; where it has failed the next address is dialled.
    fn found<R: Net + Clock>(self, rt: &R) -> io::Result<Found> {
        let mut dial = self;
        match dial.is_reached(rt) {
            Ok(true) => Ok(Found::Reached(Stream::Tcp(dial.stream))),
            Ok(false) => Ok(Found::Waits(Dialling::Tcp(dial))),
            Err(e) => match TcpDial::begin(rt, dial.addresses, dial.place.saturating_add(1)) {
                Ok(next) => Ok(Found::Waits(Dialling::Tcp(next))),
                Err(_) => Err(e),
            },
        }
    }

    // Whether the peer has answered. It fails where it did not in time, or can't be reached. A port of
    // this machine at which nobody listens may be reached from itself: that is no peer.
    fn is_reached(&mut self, clock: &impl Clock) -> io::Result<bool> {
        if let Some(e) = self.stream.take_error()? {
            return Err(e);
        }
        match self.stream.peer_addr() {
            Ok(peer) if peer == self.stream.local_addr()? => {
                Err(ErrorKind::ConnectionRefused.into())
            }
            Ok(_) => {
                self.stream.set_nodelay(true)?;
                Ok(true)
            }
            Err(e) if e.kind() == ErrorKind::NotConnected && !self.is_late(clock) => Ok(false),
            Err(e) => Err(e),
        }
    }

    // Whether the peer had its time.
    fn is_late(&mut self, clock: &impl Clock) -> bool {
        self.watch.now(clock) >= ANSWER_MILLISECONDS
    }
}

// Begins to connect to the first of the addresses from this place on at which that can be, and says
// at which.
fn connect_from<R: Net>(
    net: &R,
    addresses: &[SocketAddr],
    from: usize,
) -> io::Result<(TcpStream, usize)> {
    let mut last = io::Error::from(ErrorKind::InvalidInput);
    for place in from..addresses.len() {
        match TcpStream::connect(net, addresses[place]) {
            Ok(stream) => return Ok((stream, place)),
            Err(e) => last = e,
        }
    }
    Err(last)
}
