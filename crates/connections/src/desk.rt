//! All connections of a node that stays.
ghost use Rattle.std.specs.Prelude.{◌≡◌, ◌++◌, ◌∷◌, [], false, IsSome, OnErr, OnOk};
ghost use Rattle.std.specs.Vec.{vec_len};
ghost use Rattle.node_service.specs.Lives.{shown_bytes};
ghost use Rattle.connections.specs.Connections.{asks_since};
ghost use Rattle.connections.specs.Desks.{AnswersOn, AnswersOne, EachBy, HeardOnce, IsFirstToAsk};
ghost use Rattle.connections.specs.Desks.{ToldNext, earlier_of, watching};

use crate::answerer::{Answerer, Said};
use crate::connection::{Connection, Standing};
use node_service::{Output, Reply};
use std::alloc::{AllocError, Global};

// How long one that brings a long input may be silent before another may bring one too, in
// milliseconds.
const MOST_SILENT: u64 = 1_000;

/// A connection, with the stream over which it goes.
#[derive(Drop)]
pub struct Place<S: Drop> {
    /// The stream.
    pub stream: S,
    /// The connection.
    pub connection: Connection,
    /// Whether it is to be let go of.
    pub is_gone: bool,
}

/// Connections, of which each may have a request that waits for its answer.
#[derive(Drop)]
pub struct Desk<S: Drop> {
    /// The connections.
    pub places: Vec<Place<S>>,
    time: u64,
}

/// What came of a request.
#[derive(Debug, Drop)]
pub struct Done {
    /// The place of the connection that asked.
    pub at: usize,
    /// What was said to it.
    pub reply: Reply,
    /// Whether the answer waits to go out on that connection; it does not where there was no memory for
    /// any.
    pub told: Result<(), AllocError>,
}

impl<S: Drop> Desk<S> {
    /// No connections.
    pub fn new(alloc: Global) -> Desk<S>
        ensures { result.places.items ≡ [] }
    {
        Desk {
            places: Vec::new(alloc),
            time: 0,
        }
    }

    /// How many connections there are.
    pub fn len(&self) -> usize
        ensures { result ≡ vec_len self.now.places }
    {
        self.places.len()
    }

    /// Adds a connection. It fails only for want of memory.
    pub fn admit(&mut self, stream: S, connection: Connection) -> Result<(), AllocError>
        ensures ok { OnOk result (self.new.places.items ≡ self.old.places.items
            ++ record { stream = stream; connection = connection; is_gone = false } ∷ []) }
        ensures err { OnErr result (self.new.places.items ≡ self.old.places.items) }
    {
        self.places.push(Place {
            stream,
            connection,
            is_gone: false,
        })?;
        Ok(())
    }

    /// Hears on each connection what was brought. A long input is begun where nobody else brings one,
    /// or who does was silent for a second.
    pub fn hear_all(&mut self, now: u64)
        ensures { EachBy HeardOnce self.old.places.items self.new.places.items }
    {
        let mut may_be_long = !self.is_bringing(now);
        let waits = self.longest_waits();
        let mut time = self.time;
        for (i, place) in self.places.iter_mut().enumerate() {
            let may = may_be_long && is_turn(waits, i);
            time = time.saturating_add(1);
            may_be_long = hear_next(&mut place.connection, time, may, may_be_long, now);
        }
        self.time = time;
    }

    // Whether somebody brings a long input who was not silent for long.
    fn is_bringing(&self, now: u64) -> bool {
        let since = now.saturating_sub(MOST_SILENT);
        for place in self.places.as_slice() {
            if place.connection.brings_long(since) {
                return true;
            }
        }
        false
    }

    /// Whether somebody waits to bring a long input.
    pub fn is_waiting(&self) -> bool {
        self.longest_waits().is_some()
    }

    // Who waits for longest to bring a long input.
    fn longest_waits(&self) -> Option<usize> {
        let mut first = None;
        for (i, place) in self.places.iter().enumerate() {
            if let Standing::Waits(time) = place.connection.standing() {
                first = earlier(first, i, time);
            }
        }
        first.map(|(i, _)| i)
    }

    /// Lets go of those that are to be let go of.
    pub fn sweep(&mut self) {
        self.places.retain(|place| !place.is_gone);
    }

    /// Whose request waits for longest.
    pub fn next(&self) -> Option<usize>
        ensures { IsFirstToAsk self.now.places.items result }
    {
        let mut first = None;
        for (i, place) in self.places.iter().enumerate() {
            if let Standing::Asks(time) = place.connection.standing() {
                first = earlier(first, i, time);
            }
        }
        match first {
            Some((i, _)) => Some(i),
            None => None,
        }
    }

    /// Has the request answered that waits for longest, where there is one: its answer waits to go out
    /// on the connection that asked, and on no other anything is changed.
    pub fn answer_next<N: Answerer>(&mut self, alloc: Global, node: &mut N) -> Option<Done>
        ensures { AnswersOne N.answers node.old node.new self.old.places.items self.new.places.items
            result }
    {
        let at = self.next()?;
        let place = &mut self.places[at];
        let (reply, told) = answer_on(alloc, &mut place.connection, node);
        Some(Done { at, reply, told })
    }

    /// Tells each connection that watches the inbox, which has so many lines, the next of them, where
    /// nothing waits to go out on it.
    pub fn tell_delivered<N: Answerer>(&mut self, alloc: Global, node: &mut N, delivered: u32)
        ensures { EachBy (ToldNext N.gives delivered) self.old.places.items self.new.places.items }
    {
        for place in self.places.iter_mut() {
            tell_next(alloc, &mut place.connection, node, delivered);
        }
    }
}

// Whether it is the turn of the one at this place, where another waits or none.
fn is_turn(waits: Option<usize>, at: usize) -> bool {
    match waits {
        Some(first) => first == at,
        None => true,
    }
}

// Hears on a connection; it says whether a long input may still be begun.
fn hear_next(connection: &mut Connection, time: u64, may: bool, may_be_long: bool, now: u64) -> bool
    ensures { HeardOnce connection.old connection.new }
{
    connection.hear(time, may);
    may_be_long && !connection.brings_long(now)
}

// Has the request that is there whole answered.
fn answer_on<N: Answerer>(
    alloc: Global,
    connection: &mut Connection,
    node: &mut N,
) -> (Reply, Result<(), AllocError>)
    requires { IsSome (asks_since connection.old.standing) }
    ensures { AnswersOn N.answers node.old node.new connection.old connection.new result.0.came result.1 }
{
    let Some(asked) = connection.request() else {
        unreachable!()
    };
    let mut out = Output::new(alloc);
    let Said { reply, watch } = node.answer(
        asked.words,
        asked.size,
        asked.most,
        asked.kept,
        &mut out,
    );
    let told = connection.answer(&reply.came, shown_of(alloc, reply.shown, out));
    watch_from(watch, connection);
    (reply, told)
}

// What goes out of what was written to an output.
fn shown_of(alloc: Global, shown: bool, out: Output) -> Vec<u8>
    ensures { result.items ≡ shown_bytes shown out.bytes }
{
    if shown {
        out.into_bytes()
    } else {
        Vec::new(alloc)
    }
}

// Has a connection watch the inbox from a place on, where one is said.
fn watch_from(from: Option<u32>, connection: &mut Connection)
    ensures { connection.new ≡ watching from connection.old }
{
    if let Some(from) = from {
        connection.watch(from);
    }
}

// Tells a connection the next lines of the inbox, where it wants such.
fn tell_next<N: Answerer>(alloc: Global, connection: &mut Connection, node: &mut N, delivered: u32)
    ensures { ToldNext N.gives delivered connection.old connection.new }
{
    let Some(from) = connection.wants_lines(delivered) else {
        return;
    };
    let mut out = Output::new(alloc);
    if node.lines_from(from, &mut out) {
        connection.tell_lines(out.bytes());
    }
}

// The earlier of what was found and this one.
fn earlier(first: Option<(usize, u64)>, i: usize, time: u64) -> Option<(usize, u64)>
    ensures { result ≡ earlier_of first i time }
{
    match first {
        Some((_, before)) if before <= time => first,
        _ => Some((i, time)),
    }
}
