//! Links over TCP.
use std::io;
use std::io::ErrorKind;
use std::net::{Net, OpenListener, OpenStream, TcpListener, TcpStream, ToSocketAddrs};
use std::time::Duration;

// How long a peer has to answer a connect.
const CONNECT_SECONDS: u64 = 20;

/// Connects to the peer that listens at `HOST:PORT`, at the first of the host's addresses that
/// answers.
pub fn connect<R: Net>(net: &R, place: &str) -> io::Result<R::Stream> {
    let mut last = io::Error::from(ErrorKind::InvalidInput);
    for addr in with_port(place)?.to_socket_addrs(net)? {
        match TcpStream::connect_timeout(net, &addr, Duration::from_secs(CONNECT_SECONDS)) {
            Ok(stream) => return ready(stream),
            Err(e) => last = e,
        }
    }
    Err(last)
}

/// Waits at `HOST:PORT` for one peer, and for no other once it came.
pub fn listen<R: Net>(net: &R, place: &str) -> io::Result<R::Stream> {
    let listener = TcpListener::bind(net, with_port(place)?)?;
    let (stream, _) = listener.accept()?;
    ready(stream)
}

// The place, unless its port is missing or not one of 1 to 65,535.
fn with_port(place: &str) -> io::Result<&str> {
    match place.rsplit_once(':').map(|(_, port)| port.parse::<u16>()) {
        Some(Ok(1..)) => Ok(place),
        _ => Err(ErrorKind::InvalidInput.into()),
    }
}

// The stream. Each send is a whole record, so it goes out at once.
fn ready<S: OpenStream + Drop>(stream: S) -> io::Result<S> {
    stream.set_nodelay(true)?;
    Ok(stream)
}
