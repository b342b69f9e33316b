//! The addresses of a place of the words.
use std::alloc::Global;
use std::io;
use std::io::ErrorKind;
use std::net::{Net, SocketAddr, ToSocketAddrs};

/// The addresses of `HOST:PORT`, in the order in which they are tried. The look-up of a name waits as
/// long as the system takes.
pub fn addresses_of<R: Net>(net: &R, alloc: Global, place: &str) -> io::Result<Vec<SocketAddr>> {
    let mut addresses = Vec::new(alloc);
    for address in with_port(place)?.to_socket_addrs(net)? {
        addresses.push(address)?;
    }
    Ok(addresses)
}

// The place, unless its port is missing or not one of 1 to 65,535.
fn with_port(place: &str) -> io::Result<&str> {
    match place.rsplit_once(':').map(|(_, port)| port.parse::<u16>()) {
        Some(Ok(1..)) => Ok(place),
        _ => Err(ErrorKind::InvalidInput.into()),
    }
}
