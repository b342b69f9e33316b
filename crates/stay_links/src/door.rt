//! A place of a node's words, at which lines come up.
use crate::dialling::{Dialling, Found};
use crate::line::Line;
use crate::listening::Listening;
use crate::stream::Stream;
use outside_real::{Spec, read_spec};
use std::alloc::{AllocError, Global};
use std::io::ErrorKind;
use std::net::Net;
use std::rt::Files;
use std::time::Clock;
use std::{io, mem};

/// How a place reaches its peers.
#[derive(Clone, Copy, PartialEq, Eq)]
enum Way {
    Tcp,
    Listen,
    Unix,
    UnixListen,
    // The words name no way: each dial fails.
    None,
}

/// What is open at a place.
#[derive(Drop)]
enum State {
    Shut,
    Dials(Dialling),
    Listens(Listening),
}

/// A place of a node's words: it dials a peer, or it listens and lets peers in, one at a time. No
/// call waits for a peer; the look-up of a host's name waits as long as the system takes, which an
/// address in numbers spares.
#[derive(Drop)]
pub struct Door {
    alloc: Global,
    way: Way,
    place: String,
    state: State,
}

impl Door {
    /// The place that this spec names, where nothing is open yet. It fails only for want of memory;
    /// each dial of a spec of no kind fails.
    pub fn new(alloc: Global, spec: &str) -> Result<Door, AllocError> {
        let (way, place) = match read_spec(spec) {
            Some(Spec::Tcp(place)) => (Way::Tcp, place),
            Some(Spec::Listen(place)) => (Way::Listen, place),
            Some(Spec::Unix(path)) => (Way::Unix, path),
            Some(Spec::UnixListen(path)) => (Way::UnixListen, path),
            Some(Spec::Std) => (Way::None, ""),
            None => (Way::None, ""),
        };
        Ok(Door {
            alloc,
            way,
            place: String::from_str(alloc, place)?,
            state: State::Shut,
        })
    }

    /// Whether it dials, in place of listening.
    pub fn dials(&self) -> bool {
        !matches!(self.way, Way::Listen | Way::UnixListen)
    }

    /// Whether it listens, or a dial is under way or done.
    pub fn is_open(&self) -> bool {
        !matches!(self.state, State::Shut)
    }

    /// The number of what is open, to be waited for until it can be read where the place listens, and
    /// until it can be written where it dials; -1 where nothing is open.
    pub fn number(&self) -> i32 {
        match &self.state {
            State::Shut => -1,
            State::Dials(dialling) => dialling.number(),
            State::Listens(listening) => listening.number(),
        }
    }

    /// Listens, where it does not yet. On a Unix path the file is made here, for this owner alone, and
    /// stands at the path once it listens; a socket of this user that stands there and at which nobody
    /// answers is taken away. Where anything else stands there it fails and leaves that as it is. It
    /// fails too at a place that dials.
    pub fn listen<R: Files + Net>(&mut self, rt: &R) -> io::Result<()> {
        if self.is_open() {
            return Ok(());
        }
        let place = self.place.as_str();
        self.state = match self.way {
            Way::Listen => State::Listens(Listening::tcp(rt, self.alloc, place)?),
            Way::UnixListen => State::Listens(Listening::unix(rt, self.alloc, place)?),
            Way::Tcp | Way::Unix | Way::None => return Err(ErrorKind::InvalidInput.into()),
        };
        Ok(())
    }

    /// Begins a dial, where none is under way. It fails where that can't be, and at a place that
    /// listens; that a peer does not answer is found by `take`.
    pub fn dial<R: Net + Clock>(&mut self, rt: &R) -> io::Result<()> {
        if self.is_open() {
            return Ok(());
        }
        self.state = match self.way {
            Way::Tcp => State::Dials(Dialling::tcp(rt, self.alloc, self.place.as_str())?),
            Way::Unix => State::Dials(Dialling::unix(rt, self.place.as_str())?),
            Way::Listen | Way::UnixListen | Way::None => {
                return Err(ErrorKind::InvalidInput.into());
            }
        };
        Ok(())
    }

    /// The newest of the peers that came where it listens, while those before it are turned away; or
    /// the peer that was dialled, once it has answered. None where there is none yet, and where nothing
    /// is open. It fails where the dial has failed, or was not answered for 20 s, and then nothing is
    /// open; where a listener fails it listens still.
    pub fn take<R: Net + Clock>(&mut self, rt: &R) -> io::Result<Option<Line>> {
        let stream = match &self.state {
            State::Shut => None,
            State::Listens(listening) => listening.newest()?,
            State::Dials(_) => self.reached(rt)?,
        };
        Ok(stream.map(|stream| Line::new(self.alloc, stream)))
    }

    // The peer that was dialled, once it has answered. Then no dial is under way any more, and neither
    // where it has failed.
    fn reached<R: Net + Clock>(&mut self, rt: &R) -> io::Result<Option<Stream>> {
        let State::Dials(dialling) = mem::replace(&mut self.state, State::Shut) else {
            return Ok(None);
        };
        match dialling.found(rt)? {
            Found::Reached(stream) => Ok(Some(stream)),
            Found::Waits(dialling) => {
                self.state = State::Dials(dialling);
                Ok(None)
            }
        }
    }

    /// Closes what is open: a dial that is under way is given up, and the file of a Unix socket that
    /// was made here is taken away, if no other stands in its place. It may be opened again.
    pub fn close<R: Files>(&mut self, rt: &R) {
        let state = mem::replace(&mut self.state, State::Shut);
        if let State::Listens(listening) = state {
            listening.close(rt, self.place.as_str());
        }
    }
}
