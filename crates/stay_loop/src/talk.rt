//! The connections of a node that stays.
use connections::{Connection, Desk, MOST_BROUGHT, Place, Standing};
use outside::Heard;
use outside_real::{Asker, ControlSocket, Ready, Speaker, Stopwatch, Waiting};
use std::alloc::{AllocError, Global};
use std::io;
use std::io::{Read, Write};
use std::rt::Files;
use std::time::Clock;

// How many bytes of answers may wait for one who came to the socket before no further request of his
// is heard.
const MOST_OUT: usize = 1_048_576;

// How many who came to the socket are served at once.
const MOST_ASKERS: usize = 32;

// How long nobody is let in where the system gives no connection, in milliseconds.
const DEAF_MILLISECONDS: u64 = 1_000;

// How long is waited at most where somebody waits to bring a long input, in milliseconds.
const LONG_MILLISECONDS: u64 = 1_000;

// The number of no stream.
const NO_STREAM: i32 = -1;

/// Why the standard streams end a node.
#[derive(Clone, Copy, Debug, PartialEq, Eq)]
pub enum StdEnd {
    /// The input has ended, and all before that is answered.
    Input,
    /// A read failed.
    Read,
    /// A write failed.
    Write,
    /// What came is no request, and that is told.
    NoRequest,
    /// Memory is wanting for an answer.
    Memory,
}

/// The connections, the socket to which more come, and what is waited for.
#[derive(Drop)]
pub struct Talk<I: Read + Drop, O: Write + Drop> {
    pub alloc: Global,
    pub desk: Desk<Speaker<I, O>>,
    pub socket: Option<ControlSocket>,
    pub waiting: Waiting,
    pub watch: Stopwatch,
    pub now: u64,
    pub deaf_until: u64,
    /// The place of the socket among what was waited for.
    pub door: usize,
    pub buffer: Vec<u8>,
    pub std_end: Option<StdEnd>,
}

impl<I: Read + Drop, O: Write + Drop> Talk<I, O> {
    /// Over a socket, with no connections.
    pub fn new(
        alloc: Global,
        clock: &impl Clock,
        socket: ControlSocket,
    ) -> Result<Talk<I, O>, AllocError> {
        Ok(Talk {
            alloc,
            desk: Desk::new(alloc),
            socket: Some(socket),
            waiting: Waiting::new(alloc),
            watch: Stopwatch::new(clock),
            now: 0,
            deaf_until: 0,
            door: 0,
            buffer: vec![in alloc; 0u8; MOST_BROUGHT]?,
            std_end: None,
        })
    }

    /// Takes up the standard streams, where they are given, as a connection. While anything waits to go
    /// out on them nothing is heard on them.
    pub fn take_streams(&mut self, streams: Option<(I, O)>) -> Result<(), AllocError> {
        match streams {
            Some((input, out)) => {
                let connection = Connection::new(self.alloc, 1)?;
                self.desk.admit(Speaker::Standard(input, out), connection)
            }
            None => Ok(()),
        }
    }

    /// Begins a wait: for the connections, and for the socket.
    pub fn prepare(&mut self, clock: &impl Clock) -> Result<(), AllocError> {
        self.now = self.watch.now(clock);
        self.waiting.clear();
        for place in self.desk.places.as_slice() {
            let reads = place.connection.may_bring();
            let writes = !place.connection.waiting().is_empty();
            let input = place.stream.input_number(reads);
            self.waiting.add(input, reads, false)?;
            let output = place.stream.output_number(writes);
            self.waiting.add(output, false, writes)?;
        }
        let number = self.door_number();
        self.door = self.waiting.add(number, true, false)?;
        Ok(())
    }

    /// Waits for all that was added, so many milliseconds at most where that is said.
    pub fn wait(&mut self, clock: &impl Clock, most: Option<u64>) {
        let most = most.map(|most| u32::try_from(most).unwrap_or(u32::MAX));
        self.waiting.wait(clock, most);
        self.now = self.watch.now(clock);
    }

    // The number of the socket, where another one is let in.
    fn door_number(&self) -> i32 {
        match &self.socket {
            Some(socket) if self.lets_in() => socket.number(),
            _ => NO_STREAM,
        }
    }

    /// How long may be waited at most, in milliseconds; not at all where a request is there whole.
    pub fn most_wait(&self) -> Option<u64> {
        if self.desk.next().is_some() {
            Some(0)
        } else if self.desk.is_waiting() || self.now < self.deaf_until {
            Some(LONG_MILLISECONDS)
        } else {
            None
        }
    }

    // Whether another one who comes to the socket is let in.
    fn lets_in(&self) -> bool {
        self.askers() < MOST_ASKERS && self.now >= self.deaf_until
    }

    fn askers(&self) -> usize {
        let mut count: usize = 0;
        for place in self.desk.places.as_slice() {
            if !place.stream.is_standard() {
                count = count.saturating_add(1);
            }
        }
        count
    }

    /// Lets in who came to the socket.
    pub fn let_in(&mut self) {
        if !self.waiting.ready(self.door).reads {
            return;
        }
        match self.next_asker() {
            Ok(Some(asker)) => self.admit(asker),
            Ok(None) => {}
            Err(_) => self.deaf_until = self.now.saturating_add(DEAF_MILLISECONDS),
        }
    }

    fn next_asker(&self) -> io::Result<Option<Asker>> {
        match &self.socket {
            Some(socket) => socket.accept(),
            None => Ok(None),
        }
    }

    // Lets one in; where there is no memory for that, he is let go.
    fn admit(&mut self, asker: Asker) {
        if let Ok(connection) = Connection::new(self.alloc, MOST_OUT) {
            let _ = self.desk.admit(Speaker::Socket(asker), connection);
        }
    }

    /// Writes what waits and reads what came, where each was found ready, and lets go of those who
    /// have gone.
    pub fn move_all(&mut self) {
        for (i, place) in self.desk.places.iter_mut().enumerate() {
            let input = self.waiting.ready(i.saturating_mul(2));
            let output = self.waiting.ready(i.saturating_mul(2).saturating_add(1));
            let (now, buffer) = (self.now, self.buffer.as_mut_slice());
            let moved = move_one(place, input, output, buffer, now);
            if let Some(end) = settled(place, moved) {
                self.std_end = Some(end);
            }
        }
        self.desk.sweep();
    }

    /// Writes at once a front of what waits for one who came to the socket.
    pub fn write_to(&mut self, i: usize) {
        if let Some(place) = self.desk.places.get_mut(i) {
            if !place.stream.is_standard() {
                let written = write_some(place);
                let _ = settled(place, written);
            }
        }
    }

    /// Hears what was brought on all connections, up to a request of each.
    pub fn hear_all(&mut self) {
        self.desk.hear_all(self.now);
    }

    /// Lets go of connections that are over; where it is the standard streams, that ends the node. All
    /// that could be heard was heard before.
    pub fn sweep(&mut self) {
        for place in self.desk.places.iter_mut() {
            if is_over(place) {
                if place.stream.is_standard() {
                    let end = end_of(&place.connection);
                    self.std_end = self.std_end.or(Some(end));
                } else {
                    place.is_gone = true;
                }
            }
        }
        self.desk.sweep();
    }

    /// Lets go of a connection that could not be answered; the standard streams end the node so.
    pub fn lose(&mut self, i: usize) {
        if let Some(place) = self.desk.places.get_mut(i) {
            if let Some(end) = settled(place, Moved::Lost) {
                self.std_end = Some(end);
            }
        }
    }

    /// Takes the name of the socket away, and lets nobody in any more.
    pub fn take_name_away<R: Files>(&mut self, rt: &R) {
        if let Some(socket) = self.socket.take() {
            socket.close(rt);
        }
    }

    /// Tells each who watches that the journal is full.
    pub fn tell_full(&mut self) {
        for place in self.desk.places.iter_mut() {
            if place.connection.watches() {
                let _ = place.connection.tell("full", 0, &[]);
            }
        }
    }

    /// Tells each who came to the socket that the node ends, and who watches on the standard streams.
    pub fn tell_quit(&mut self) {
        for place in self.desk.places.iter_mut() {
            if !place.stream.is_standard() || place.connection.watches() {
                let _ = place.connection.tell("quit", 0, &[]);
            }
        }
    }

    /// Lets go of those for whom nothing waits, or who do not take it any more; of all who came to the
    /// socket where that is said.
    pub fn forget_done(&mut self, all_askers: bool) {
        let is_written = self.std_end != Some(StdEnd::Write);
        for place in self.desk.places.iter_mut() {
            let goes_on = if place.stream.is_standard() {
                is_written
            } else {
                !all_askers
            };
            if place.connection.waiting().is_empty() || !goes_on {
                place.is_gone = true;
            }
        }
        self.desk.sweep();
    }

    /// Waits until something that waits may go out, for so many milliseconds at most where anybody
    /// came to the socket, and has it go out.
    pub fn write_last(&mut self, clock: &impl Clock, most: u32) -> Result<(), AllocError> {
        self.waiting.clear();
        for place in self.desk.places.as_slice() {
            self.waiting
                .add(place.stream.output_number(true), false, true)?;
        }
        let most = if self.askers() > 0 { Some(most) } else { None };
        self.waiting.wait(clock, most);
        for (i, place) in self.desk.places.iter_mut().enumerate() {
            if self.waiting.ready(i).writes {
                let written = write_some(place);
                if let Some(end) = settled(place, written) {
                    self.std_end = Some(end);
                }
            }
        }
        self.desk.sweep();
        Ok(())
    }
}

/// What a write or a read on a connection came to.
#[derive(Clone, Copy, Debug, PartialEq, Eq)]
enum Moved {
    /// It goes on.
    On,
    /// The other end has gone.
    Gone,
    /// A read failed.
    ReadFault,
    /// A write failed.
    WriteFault,
    /// There is no memory for what came or is to be told.
    Lost,
}

// Lets go of a connection on which nothing goes on; where it is the standard streams, it says why
// that ends the node.
fn settled<I: Read + Drop, O: Write + Drop>(
    place: &mut Place<Speaker<I, O>>,
    moved: Moved,
) -> Option<StdEnd> {
    if moved == Moved::On {
        return None;
    }
    if !place.stream.is_standard() {
        place.is_gone = true;
        return None;
    }
    match moved {
        Moved::On | Moved::Gone => None,
        Moved::ReadFault => Some(StdEnd::Read),
        Moved::WriteFault => Some(StdEnd::Write),
        Moved::Lost => Some(StdEnd::Memory),
    }
}

// Writes and reads on one connection.
fn move_one<I: Read + Drop, O: Write + Drop>(
    place: &mut Place<Speaker<I, O>>,
    input: Ready,
    output: Ready,
    buffer: &mut [u8],
    now: u64,
) -> Moved {
    if output.writes {
        let written = write_some(place);
        if written != Moved::On {
            return written;
        }
    }
    if place.connection.may_bring() {
        if input.reads {
            read_some(place, buffer, now)
        } else {
            Moved::On
        }
    } else if input.gone && !matches!(place.connection.standing(), Standing::Asks(_)) {
        Moved::Gone
    } else {
        Moved::On
    }
}

// Writes a front of what waits to go out on a connection.
fn write_some<I: Read + Drop, O: Write + Drop>(place: &mut Place<Speaker<I, O>>) -> Moved {
    if place.connection.waiting().is_empty() {
        return Moved::On;
    }
    match place.stream.write(place.connection.waiting()) {
        Ok(count) => {
            place.connection.pass(count);
            Moved::On
        }
        Err(_) => Moved::WriteFault,
    }
}

// Reads once what came on a connection.
fn read_some<I: Read + Drop, O: Write + Drop>(
    place: &mut Place<Speaker<I, O>>,
    buffer: &mut [u8],
    now: u64,
) -> Moved {
    match place.stream.read(buffer) {
        Heard::Got(n) => match place.connection.bring(&buffer[..n.min(buffer.len())], now) {
            Ok(()) => Moved::On,
            Err(AllocError) => Moved::Lost,
        },
        Heard::Idle => Moved::On,
        Heard::End => {
            place.connection.end();
            Moved::On
        }
        Heard::Failed => Moved::ReadFault,
    }
}

// Whether nothing more is to be done on a connection. The standard streams are over with their input,
// whatever is watched there.
fn is_over<I: Read + Drop, O: Write + Drop>(place: &Place<Speaker<I, O>>) -> bool {
    let connection = &place.connection;
    if place.stream.is_standard()
        && connection.has_ended()
        && connection.waiting().is_empty()
        && connection.standing() == Standing::Hears
    {
        return true;
    }
    connection.is_over()
}

// Why the standard streams end the node, whose connection is over.
fn end_of(connection: &Connection) -> StdEnd {
    match connection.standing() {
        Standing::Fault => StdEnd::NoRequest,
        _ => StdEnd::Input,
    }
}
