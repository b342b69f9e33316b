//! Whether a node serves the store of the current folder, and hears.
use crate::wire::Wire;
use std::alloc::{AllocError, Global};
use std::io::{ErrorKind, Read};
use std::net::Net;
use std::os::unix::fs::{FileTypeExt, MetadataExt};
use std::os::unix::net::UnixStream;
use std::rt::Files;
use std::time::{Clock, Duration, Instant};
use std::{fs, io, thread};

// The socket of a node in the folder of its store.
const SOCKET_NAME: &str = "bsp.sock";

// What a node says first.
const GREETING: &[u8] = b"node 1\n";

const GREETING_LEN: usize = 7;

// How long a node has to say that it hears, and how long one wait for it takes.
const MOST_MILLISECONDS: u64 = 10_000;

const WAIT_MILLISECONDS: u64 = 20;

/// Who answers at the socket of a node.
#[derive(Drop)]
pub enum Met {
    /// A node, which hears.
    Node(Wire),
    /// Nobody, and nothing was asked.
    Nobody,
    /// Somebody who did not say within ten seconds that it hears; nothing was asked.
    Busy,
}

/// Asks at the socket in the current folder, where it is a socket of this user and no link, and
/// waits for ten seconds at most until a node says that it hears. It fails only for want of memory.
pub fn meet<R: Files + Net + Clock>(rt: &R, alloc: Global) -> Result<Met, AllocError> {
    if !is_own_socket(rt) {
        return Ok(Met::Nobody);
    }
    let Ok(start) = Instant::now(rt) else {
        return Ok(Met::Nobody);
    };
    for _ in 0..u64::MAX {
        match mio::net::UnixStream::connect(rt, SOCKET_NAME) {
            Ok(stream) => return greeted(rt, alloc, UnixStream::from(stream), &start),
            Err(e) if e.kind() == ErrorKind::WouldBlock && !is_over(rt, &start) => {
                thread::sleep(rt, Duration::from_millis(WAIT_MILLISECONDS));
            }
            Err(e) if e.kind() == ErrorKind::WouldBlock => return Ok(Met::Busy),
            Err(_) => return Ok(Met::Nobody),
        }
    }
    Ok(Met::Busy)
}

// Whether a node had its time since then. Where the system tells no time it had.
fn is_over(clock: &impl Clock, start: &Instant) -> bool {
    match start.elapsed(clock) {
        Ok(time) => time >= Duration::from_millis(MOST_MILLISECONDS),
        Err(_) => true,
    }
}

// Whether a socket of this user stands there, and no link.
fn is_own_socket<R: Files>(rt: &R) -> bool {
    match fs::symlink_metadata(rt, SOCKET_NAME) {
        Ok(found) => found.file_type().is_socket() && found.uid() == libc::geteuid(),
        Err(_) => false,
    }
}

// Waits until a node says that it hears, or had its time since then.
fn greeted(
    clock: &impl Clock,
    alloc: Global,
    stream: UnixStream,
    start: &Instant,
) -> Result<Met, AllocError> {
    let mut stream = stream;
    match greeting_of(clock, &mut stream, start) {
        Ok(Some(greeting)) if greeting.as_slice() == GREETING => match Wire::new(alloc, stream)? {
            Some(wire) => Ok(Met::Node(wire)),
            None => Ok(Met::Nobody),
        },
        Ok(None) => Ok(Met::Busy),
        Ok(Some(_)) | Err(_) => Ok(Met::Nobody),
    }
}

// What a node says first, where it came in time.
fn greeting_of(
    clock: &impl Clock,
    stream: &mut UnixStream,
    start: &Instant,
) -> io::Result<Option<[u8; GREETING_LEN]>> {
    stream.set_nonblocking(false)?;
    stream.set_read_timeout(Some(Duration::from_millis(WAIT_MILLISECONDS)))?;
    let mut greeting = [0u8; GREETING_LEN];
    let mut done = 0;
    for _ in 0..u64::MAX {
        if done >= GREETING_LEN {
            return Ok(Some(greeting));
        }
        match stream.read(&mut greeting[done..]) {
            Ok(0) => return Err(ErrorKind::UnexpectedEof.into()),
            Ok(n) => done += n,
            Err(e) if is_pause(&e) && is_over(clock, start) => return Ok(None),
            Err(e) if is_pause(&e) => {}
            Err(e) => return Err(e),
        }
    }
    Ok(None)
}

// The wait was over, or a signal came.
fn is_pause(e: &io::Error) -> bool {
    matches!(e.kind(), ErrorKind::WouldBlock | ErrorKind::Interrupted)
}
