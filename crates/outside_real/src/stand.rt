//! Sockets that listen at a path.
use std::alloc::Global;
use std::io::ErrorKind;
use std::net::Net;
use std::os::fd::{AsFd, AsRawFd, OwnedFd};
use std::os::unix::fs::{FileTypeExt, MetadataExt};
use std::os::unix::net::{SocketAddr, UnixListener};
use std::path::{Path, PathBuf};
use std::rt::Files;
use std::{fs, io};

// The mode of a socket's file that is made here: its owner alone may connect.
const OWN_MODE: u32 = 0o600;

// How many who try at once wait as the system has them wait.
const BACKLOG: i32 = 16;

// How many names beside a path are tried for a socket that does not listen yet.
const MOST_NAMES: u32 = 1_000;

/// The file of a socket, whatever its names: its device and its inode, and whose it is.
#[derive(Clone, Copy, PartialEq, Eq)]
pub struct Node {
    device: u64,
    inode: u64,
    owner: u32,
    is_socket: bool,
}

/// A socket that listens, and its file.
#[derive(Drop)]
pub struct Standing {
    /// The socket.
    pub listener: UnixListener,
    /// Its file.
    pub node: Node,
}

/// Listens at a path. The file is made here, for this owner alone, and stands at the path once it
/// listens: no dial that finds it is refused. Where something stands there already the call fails
/// (`AlreadyExists`) and leaves it as it is.
pub fn stand_free<R: Files + Net>(rt: &R, alloc: Global, path: &str) -> io::Result<Standing> {
    stand_as(rt, alloc, path, false)
}

/// As `stand_free`, where a socket of this user at which nobody answers is taken away.
pub fn stand_at<R: Files + Net>(rt: &R, alloc: Global, path: &str) -> io::Result<Standing> {
    stand_as(rt, alloc, path, true)
}

fn stand_as<R: Files + Net>(
    rt: &R,
    alloc: Global,
    path: &str,
    takes_over: bool,
) -> io::Result<Standing> {
    // Nobody could dial a path that is too long for an address.
    let _ = SocketAddr::from_pathname(path)?;
    let (listener, own) = listen_beside(rt, alloc, path)?;
    let node = node_at(rt, own.as_path().as_str())?;
    let linked = link_at(rt, own.as_path().as_str(), path, node, takes_over);
    remove(rt, own.as_path().as_str(), node);
    linked?;
    Ok(Standing { listener, node })
}

// Gives a socket a path as its second name: a rename would replace what stands there.
fn link_at<R: Files + Net>(
    rt: &R,
    own: &str,
    path: &str,
    node: Node,
    takes_over: bool,
) -> io::Result<()> {
    match fs::hard_link(rt, own, path) {
        Err(e) if takes_over && e.kind() == ErrorKind::AlreadyExists => {
            take_away_stale(rt, path, node)?;
            fs::hard_link(rt, own, path)
        }
        answer => answer,
    }
}

// Takes away a socket of the same user at which nobody answers.
fn take_away_stale<R: Files + Net>(rt: &R, path: &str, own: Node) -> io::Result<()> {
    let found = node_at(rt, path)?;
    if found.is_socket && found.owner == own.owner && is_refused(rt, path) {
        remove(rt, path, found);
        return Ok(());
    }
    Err(ErrorKind::AlreadyExists.into())
}

// Whether nobody answers at a socket. One at which too many wait answers.
fn is_refused<R: Net>(net: &R, path: &str) -> bool {
    match mio::net::UnixStream::connect(net, path) {
        Ok(_) => false,
        Err(e) => e.kind() == ErrorKind::ConnectionRefused,
    }
}

// A socket that listens under a name beside a path, and where.
fn listen_beside<R: Files + Net>(
    rt: &R,
    alloc: Global,
    path: &str,
) -> io::Result<(UnixListener, PathBuf)> {
    let socket = rt.unix_socket()?;
    // It has its mode before it has a name, and its file gets that.
    if libc::fchmod(socket.as_raw_fd(), OWN_MODE) != 0 {
        return Err(ErrorKind::PermissionDenied.into());
    }
    let own = bind_beside(rt, alloc, &socket, path)?;
    if libc::net::listen(socket.as_raw_fd(), BACKLOG) != 0 {
        let _ = fs::remove_file(rt, own.as_path());
        return Err(ErrorKind::AddrNotAvailable.into());
    }
    Ok((UnixListener::from(socket), own))
}

// Gives a socket the first free name among the numbers beside a path. None is longer than the name
// in the path, so what is short enough for an address stays so.
fn bind_beside<R: Files>(
    rt: &R,
    alloc: Global,
    socket: &OwnedFd,
    path: &str,
) -> io::Result<PathBuf> {
    let Some(name) = Path::new(path).file_name() else {
        return Err(ErrorKind::InvalidInput.into());
    };
    for number in 0..MOST_NAMES {
        let own = format!(in alloc; "{number}")?;
        if own.len() > name.len() {
            break;
        }
        let place = Path::new(path).with_file_name(alloc, own.as_str())?;
        if own.as_str() != name && is_bound(rt, socket, &place)? {
            return Ok(place);
        }
    }
    Err(ErrorKind::AddrInUse.into())
}

// Whether a socket got this name, or something has it.
fn is_bound<R: Files>(rt: &R, socket: &OwnedFd, place: &PathBuf) -> io::Result<bool> {
    let address = SocketAddr::from_pathname(place.as_path())?;
    match rt.bind_unix(socket.as_fd(), &address) {
        Ok(()) => Ok(true),
        Err(e) if e.kind() == ErrorKind::AddrInUse => Ok(false),
        Err(e) => Err(e),
    }
}

// What stands at a path itself; a link that stands there is not followed.
fn node_at<R: Files>(rt: &R, path: &str) -> io::Result<Node> {
    let found = fs::symlink_metadata(rt, path)?;
    Ok(Node {
        device: found.dev(),
        inode: found.ino(),
        owner: found.uid(),
        is_socket: found.file_type().is_socket(),
    })
}

/// Takes a name away where it is still one of this file. One that stays is found by the next that
/// wants it, and who listened there does not need it.
pub fn remove<R: Files>(rt: &R, path: &str, node: Node) {
    if node_at(rt, path).is_ok_and(|found| found == node) {
        let _ = fs::remove_file(rt, path);
    }
}
