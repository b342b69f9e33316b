//! A node that stays, from its load to its end.
use crate::answering::ended_by;
use crate::holder::Holder;
use crate::keeper::Keeper;
use crate::last::{report_last, tell_last};
use crate::log::Log;
use crate::service::Service;
use crate::spots::Spots;
use crate::talk::Talk;
use outside_real::{Cause, ControlSocket, FileHost, Need, StdSink, Turn, Unmet};
use stay_links::StayHost;
use stay_words::{LinksOfStay, Way};
use std::alloc::{AllocError, Global};
use std::fs::{File, Files};
use std::hash::RandomState;
use std::io::{Read, Write};
use std::net::Net;
use std::rt::Runtime;
use sync_rules::{Clients, Refused};
use sync_words::{Outcome, Status};

/// What a node that stays is given: its links, which way it is asked, and its streams.
#[derive(Drop)]
pub struct Course<I: Read + Drop, O: Write + Drop, E: Write + Drop> {
    /// Its turn at the files of the store, or why they can't be had.
    pub turn: Result<Turn, Unmet>,
    /// Which way it is asked.
    pub way: Way,
    /// The links that it keeps up.
    pub links: LinksOfStay,
    /// The standard input.
    pub input: I,
    /// The standard output.
    pub out: O,
    /// The error output.
    pub err: StdSink<E>,
}

/// Holds the store in the current folder, keeps its links up and answers who asks, until it is told to
/// quit, the standard input ends, or a fault ends it; then it tells why on the error output, and says
/// the status. Nobody who does not read or write holds it up.
pub fn stay<R, I, O, E, C>(
    rt: R,
    alloc: Global,
    hasher: RandomState,
    course: Course<I, O, E>,
    clients: C,
) -> Status
where
    R: Runtime + Files<File = File> + AllocGlobal + Net,
    I: Read + Drop,
    O: Write + Drop,
    E: Write + Drop,
    C: Clients + Drop,
{
    let Course {
        turn,
        way,
        links,
        input,
        out,
        err,
    } = course;
    let mut log = Log { alloc, err };
    let Ok(clock) = rt.clone() else {
        return report_last(&rt, &Outcome::Memory, None, &mut log);
    };
    let streams = match way {
        Way::Std => Some((input, out)),
        Way::Socket => None,
    };
    match begin(rt, &clock, alloc, hasher, turn, links, clients) {
        Ok((holder, socket)) => serve(clock, holder, socket, streams, log),
        Err((came, cause)) => report_last(&clock, &came, cause, &mut log),
    }
}

// What a node came to, and why a call on a file failed.
type Ended = (Outcome, Option<Cause>);

// Has the files, the places of the words and the socket, and loads the store. Where that can't be it
// says what the node comes to.
fn begin<R, C>(
    rt: R,
    clock: &R,
    alloc: Global,
    hasher: RandomState,
    turn: Result<Turn, Unmet>,
    links: LinksOfStay,
    clients: C,
) -> Result<(Holder<R, C>, ControlSocket), Ended>
where
    R: Runtime + Files<File = File> + AllocGlobal + Net,
    C: Clients + Drop,
{
    let Ok(host) = FileHost::had(rt, ".", Need::Stay, turn) else {
        return Err((Outcome::Memory, None));
    };
    if host.cause().is_some() {
        return Err((Outcome::DiskFault, host.cause()));
    }
    let (Ok(host), Ok(spots)) = (StayHost::new(host), Spots::new(alloc, links)) else {
        return Err((Outcome::Memory, None));
    };
    let socket = match ControlSocket::open(clock, alloc, ".") {
        Ok(socket) => socket,
        Err(Unmet::Memory) => return Err((Outcome::Memory, None)),
        Err(Unmet::Cause(cause)) => return Err((Outcome::DiskFault, Some(cause))),
    };
    match load(alloc, hasher, host, &spots, clients) {
        Ok(keeper) => Ok((Holder { keeper, spots }, socket)),
        Err(ended) => {
            socket.close(clock);
            Err(ended)
        }
    }
}

// Loads the store, in which each contact of the words is to be known.
fn load<R, C>(
    alloc: Global,
    hasher: RandomState,
    host: StayHost<R>,
    spots: &Spots,
    clients: C,
) -> Result<Keeper<StayHost<R>, C>, Ended>
where
    R: Runtime + Files<File = File> + AllocGlobal + Net,
    C: Clients + Drop,
{
    match Keeper::begin(alloc, hasher, host, clients) {
        Ok(keeper) => {
            for spot in spots.spots.as_slice() {
                if !keeper.knows_contact(spot.words.contact) {
                    return Err((Outcome::Refused(Refused::UnknownContact), None));
                }
            }
            Ok(keeper)
        }
        Err((came, host)) => Err((came, host.files().cause())),
    }
}

// Answers who asks and keeps the links up until the node ends, and tells what it came to.
fn serve<R, I, O, E, C>(
    rt: R,
    holder: Holder<R, C>,
    socket: ControlSocket,
    streams: Option<(I, O)>,
    log: Log<E>,
) -> Status
where
    R: Runtime + Files<File = File> + AllocGlobal + Net,
    I: Read + Drop,
    O: Write + Drop,
    E: Write + Drop,
    C: Clients + Drop,
{
    let mut log = log;
    let Ok(talk) = Talk::new(holder.keeper.alloc(), &rt, socket) else {
        return report_last(&rt, &Outcome::Memory, None, &mut log);
    };
    let mut service = Service {
        rt,
        talk,
        holder,
        log,
        is_moving: true,
        asked_until: 0,
    };
    let came = match service.talk.take_streams(streams) {
        Ok(()) => rounds(&mut service),
        Err(AllocError) => Outcome::Memory,
    };
    service.close();
    end(service, &came)
}

// Lets go of the files, has what waits go out, and tells what the node came to.
fn end<R, I, O, E, C>(service: Service<R, I, O, E, C>, came: &Outcome) -> Status
where
    R: Runtime + Files<File = File> + AllocGlobal + Net,
    I: Read + Drop,
    O: Write + Drop,
    E: Write + Drop,
    C: Clients + Drop,
{
    let Service {
        rt,
        talk,
        holder,
        log,
        ..
    } = service;
    let mut log = log;
    let_go(holder.keeper.host().files());
    tell_last(&rt, talk, came);
    let cause = holder.keeper.host().files().cause();
    report_last(&rt, came, cause, &mut log)
}

// Lets go of the locks on the files of the store, which are touched no more.
fn let_go<R: Runtime + Net>(host: &FileHost<R>) {
    if let Ok(Some(lock)) = host.lock() {
        lock.let_go();
    }
}

// Makes rounds until the node ends.
fn rounds<R, I, O, E, C>(service: &mut Service<R, I, O, E, C>) -> Outcome
where
    R: Runtime + Files<File = File> + AllocGlobal + Net,
    I: Read + Drop,
    O: Write + Drop,
    E: Write + Drop,
    C: Clients + Drop,
{
    for _ in 0..u64::MAX {
        if let Err(AllocError) = service.wait() {
            return Outcome::Memory;
        }
        if let Some(came) = service.round() {
            return came;
        }
    }
    Outcome::TooMuch
}

impl<R, I, O, E, C> Service<R, I, O, E, C>
where
    R: Runtime + Files<File = File> + AllocGlobal + Net,
    I: Read + Drop,
    O: Write + Drop,
    E: Write + Drop,
    C: Clients + Drop,
{
    // One round: who asks is attended to, links come up, each has its turn, and what was delivered is
    // told. It says what the node comes to where it ends.
    fn round(&mut self) -> Option<Outcome> {
        if let Some(came) = self.attend() {
            return Some(came);
        }
        if let Some(came) = self.let_come() {
            return Some(came);
        }
        if let Some(came) = self.turn_all() {
            return Some(came);
        }
        if let Some(came) = self.end_links() {
            return Some(came);
        }
        self.tell_delivered();
        self.talk.sweep();
        ended_by(self.talk.std_end)
    }
}
