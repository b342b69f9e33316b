//! Links over the Unix sockets of this machine.
use crate::stand::{remove, stand_free};
use std::alloc::Global;
use std::io;
use std::net::Net;
use std::os::unix::net::UnixStream;
use std::rt::Files;

/// Connects to the peer that listens at a path.
pub fn connect<R: Net>(net: &R, path: &str) -> io::Result<UnixStream> {
    UnixStream::connect(net, path)
}

/// Waits at a path for one peer, and for no other once it came. The file is made here, for this
/// owner alone, and stands at the path once it listens: no dial that finds it is refused. It is
/// taken away again, and what somebody put in its place meanwhile is not; where something stands at
/// the path already, the call fails (`AlreadyExists`) and leaves it as it is.
pub fn listen<R: Files + Net>(rt: &R, alloc: Global, path: &str) -> io::Result<UnixStream> {
    let standing = stand_free(rt, alloc, path)?;
    let accepted = standing.listener.accept();
    // The listener is still open, so no other file has its inode by now.
    remove(rt, path, standing.node);
    let (stream, _) = accepted?;
    Ok(stream)
}
