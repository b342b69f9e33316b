//! The socket at which a node that stays is asked.
use crate::cause::{Cause, Unmet};
use crate::stand::{Node, Standing, remove, stand_at};
use outside::Heard;
use std::alloc::Global;
use std::io;
use std::io::{ErrorKind, Read, Write};
use std::net::Net;
use std::os::fd::AsRawFd;
use std::os::unix::net::{UnixListener, UnixStream};
use std::path::Path;
use std::rt::Files;

/// The name of the socket in the folder of a store.
pub const SOCKET_NAME: &str = "bsp.sock";

/// The socket of a node that stays, with its name.
#[derive(Drop)]
pub struct ControlSocket {
    listener: UnixListener,
    path: String,
    node: Node,
}

impl ControlSocket {
    /// Listens in this folder, whose store nobody else holds. A socket of the same user at which
    /// nobody answers is taken away; anything else that stands there is left alone.
    pub fn open<R: Files + Net>(
        rt: &R,
        alloc: Global,
        folder: &str,
    ) -> Result<ControlSocket, Unmet> {
        let path = Path::new(folder).join(alloc, SOCKET_NAME)?;
        let path = String::from_str(alloc, path.as_path().as_str())?;
        match stand_at(rt, alloc, path.as_str()) {
            Ok(Standing { listener, node }) => {
                listener.set_nonblocking(true)?;
                Ok(ControlSocket {
                    listener,
                    path,
                    node,
                })
            }
            Err(e) if e.kind() == ErrorKind::AlreadyExists => Err(Unmet::Cause(Cause::NoSocket)),
            Err(e) => Err(Unmet::from(e)),
        }
    }

    /// Its number.
    pub fn number(&self) -> i32 {
        self.listener.as_raw_fd()
    }

    /// The next who comes, without a wait; an error where one can't be had.
    pub fn accept(&self) -> io::Result<Option<Asker>> {
        match self.listener.accept() {
            Ok((stream, _)) => {
                stream.set_nonblocking(true)?;
                Ok(Some(Asker { stream }))
            }
            Err(e) if e.kind() == ErrorKind::WouldBlock => Ok(None),
            Err(e) => Err(e),
        }
    }

    /// Takes the name away, and listens no more. What somebody put in its place meanwhile is not.
    pub fn close<R: Files>(self, rt: &R) {
        remove(rt, self.path.as_str(), self.node);
    }
}

/// The stream of one who asks. No call waits.
#[derive(Drop)]
pub struct Asker {
    stream: UnixStream,
}

impl Asker {
    /// Its number.
    pub fn number(&self) -> i32 {
        self.stream.as_raw_fd()
    }

    /// Reads once what is there, into the front of `buf`.
    pub fn read(&mut self, buf: &mut [u8]) -> Heard {
        match self.stream.read(buf) {
            Ok(0) => Heard::End,
            Ok(n) => Heard::Got(n),
            Err(e) if is_pause(&e) => Heard::Idle,
            Err(_) => Heard::Failed,
        }
    }

    /// Writes a front of the bytes, and says how many: none where they are not taken now.
    pub fn write(&mut self, bytes: &[u8]) -> io::Result<usize> {
        match self.stream.write(bytes) {
            Err(e) if is_pause(&e) => Ok(0),
            answer => answer,
        }
    }
}

fn is_pause(e: &io::Error) -> bool {
    matches!(e.kind(), ErrorKind::WouldBlock | ErrorKind::Interrupted)
}
