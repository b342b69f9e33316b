//! One connection of a node that stays.
ghost use Rattle.std.specs.Prelude.{◌≡◌, ◌≤◌, ◌<◌, ◌++◌, ◌==◌, ℕ, List, length, drop, take, Some, None};
ghost use Rattle.std.specs.Prelude.{OnOk, OnErr, IfOk, MatchBool, MatchOption, is_some, true};
ghost use Rattle.request_frames.specs.Reading.{IsAsked, IsWhole};
ghost use Rattle.node_service.specs.Ears.{IsInInput};
ghost use Rattle.node_service.specs.Lives.{fault_answer, spelled_answer};
ghost use Rattle.sync_words.specs.declared.outcome.Outcome.{Outcome};
ghost use Rattle.connections.specs.Connections.{asks_since, fresh_connection};
ghost use Rattle.connections.specs.Connections.{can_hear, is_over, may_bring, may_hear, wants_lines};
ghost use Rattle.connections.specs.Hearing.{AsksFor, FaultTold, HearsOn, HearsSome, HearsWhere, IsAskedOn};
ghost use Rattle.connections.specs.Telling.{GetsAnswer, TellsLines, TellsNotice, told_more};
ghost use Rattle.connections.specs.declared.connection.Standing.TheVariants as standing;

use crate::notice::{lines_in, notice_of, place_behind};
use node_service::{command_of, reads_most};
use outbox::Outbox;
use request_frames::{
    InputSize, Next, Reader, answer_line, keeping_goes_on, readings_are_whole, readings_go_on,
};
use std::alloc::{AllocError, Global};
use std::marker::Model;
use sync_words::Outcome;

/// How many bytes are brought at once at most.
pub const MOST_BROUGHT: usize = 65_536;

/// An input of which more is kept is long: one connection at a time brings one.
pub const LONG_INPUT: usize = 65_536;

// What a node says first: that it is ready, and which framing it speaks.
const GREETING: &[u8] = b"node 1\n";

/// Where one stands who asks.
#[derive(Clone, Copy, Debug, PartialEq, Eq)]
pub enum Standing {
    /// Before a request or in it.
    Hears,
    /// Before a long input, which may not come yet, since this time.
    Waits(u64),
    /// A request is there whole since this time, and has no answer.
    Asks(u64),
    /// What came is no request; nothing more is heard.
    Fault,
}

/// A request that is there whole.
#[derive(Clone, Copy)]
pub struct Asked<'a> {
    /// Its words, a zero byte behind each.
    pub words: &'a [u8],
    /// What its head says of its input.
    pub size: InputSize,
    /// How many bytes of its input were to be kept at most.
    pub most: usize,
    /// What was kept of it.
    pub kept: &'a [u8],
}

/// A connection: a reader of the requests that come on it, the bytes that it has not heard yet, and
/// what waits to go out. Contracts see these, where it stands and which place it watches, and not since
/// when it brings a long input.
#[derive(Drop)]
pub struct Connection {
    alloc: Global,
    reader: Reader,
    piece: Vec<u8>,
    at: usize,
    out: Outbox,
    most_out: usize,
    standing: Standing,
    has_ended: bool,
    brings_long: bool,
    brought_at: u64,
    watch: Option<u32>,
}

impl Model for Connection {
    ghost use Rattle.std.specs.Prelude.{drop};
    ghost use Rattle.connections.specs.Connections.{ConnectionValue, IsConnection};

    ghost Value = { ConnectionValue };

    ghost view = { λ c. record {
      reader = c.reader;
      rest = drop c.at c.piece.items;
      waits = c.out;
      standing = c.standing;
      has_ended = c.has_ended;
      watch = c.watch;
      most_out = c.most_out;
    } };

    ghost invariant = { λ c. IsConnection c.at c.piece.items c.standing c.reader.at };
}

impl Connection {
    /// A connection on which nothing came, and the greeting waits to go out. No further request of it
    /// is heard while so many bytes or more wait. It fails only for want of memory.
    pub fn new(alloc: Global, most_out: usize) -> Result<Connection, AllocError>
        ensures { IfOk result (λ c. c ≡ fresh_connection most_out) }
    {
        let mut out = Outbox::new(alloc);
        out.push(GREETING)?;
        Ok(Connection {
            alloc,
            reader: Reader::new(alloc)?,
            piece: Vec::with_capacity(alloc, MOST_BROUGHT)?,
            at: 0,
            out,
            most_out,
            standing: Standing::Hears,
            has_ended: false,
            brings_long: false,
            brought_at: 0,
            watch: None,
        })
    }

    /// Whether bytes may be brought.
    pub fn may_bring(&self) -> bool
        ensures { result ≡ may_bring self.now }
    {
        matches!(self.standing, Standing::Hears)
            && self.at >= self.piece.len()
            && !self.has_ended
            && self.may_hear()
    }

    // Whether not too much waits to go out for a further request to be heard.
    fn may_hear(&self) -> bool
        ensures { result ≡ may_hear self.now }
    {
        self.out.len() < self.most_out
    }

    /// Brings the next bytes, behind those that were not heard yet. It fails only for want of memory, and
    /// then nothing has changed.
    pub fn bring(&mut self, bytes: &[u8], now: u64) -> Result<(), AllocError>
        ensures ok { OnOk result (self.new ≡ record self.old { rest = self.old.rest ++ bytes.now }) }
        ensures err { OnErr result (self.new ≡ self.old) }
    {
        if self.at == self.piece.len() {
            self.piece.clear();
            self.at = 0;
        }
        self.piece.extend_from_slice(bytes)?;
        self.brought_at = now;
        Ok(())
    }

    /// Nothing more comes.
    pub fn end(&mut self)
        ensures { self.new ≡ record self.old { has_ended = true } }
    {
        self.has_ended = true;
    }

    /// Whether nothing more comes.
    pub fn has_ended(&self) -> bool
        ensures { result ≡ self.now.has_ended }
    {
        self.has_ended
    }

    /// Where it stands.
    pub fn standing(&self) -> Standing
        ensures { result ≡ self.now.standing }
    {
        self.standing
    }

    /// Whether it brings a long input, and some of it came since the time.
    pub fn brings_long(&self, since: u64) -> bool {
        self.brings_long && (!matches!(self.standing, Standing::Hears) || self.brought_at >= since)
    }

    /// Hears what was brought, up to the end of a request, which then asks since this time. A long
    /// input is begun only where that may be. While a request asks nothing is heard.
    pub fn hear(&mut self, time: u64, may_be_long: bool)
        ensures { HearsWhere (can_hear self.old may_be_long) self.old self.new }
    {
        match self.standing {
            Standing::Hears => {
                if self.may_hear() {
                    self.hear_piece(time, may_be_long);
                }
            }
            Standing::Waits(since) => {
                if may_be_long {
                    self.hear_input(since, true);
                }
            }
            Standing::Asks(_) | Standing::Fault => {}
        }
    }

    fn hear_piece(&mut self, time: u64, may_be_long: bool)
        requires { self.old.standing ≡ standing.Hears }
        ensures { HearsOn self.old self.new }
    {
        readings_go_on();
        readings_are_whole();
        match self.hear_some() {
            Next::Whole => self.standing = Standing::Asks(time),
            Next::More => {}
            Next::Fault => self.tell_fault(),
            Next::Words => self.hear_input(time, may_be_long),
        }
    }

    // Hears the input of a request whose words are there, or waits before it.
    fn hear_input(&mut self, time: u64, may_be_long: bool)
        requires { IsAsked self.old.reader.at }
        ensures { HearsOn self.old self.new }
    {
        keeping_goes_on();
        let most = self.wanted();
        let is_long = most.min(self.input_len()) > LONG_INPUT;
        if is_long && !may_be_long {
            self.brings_long = false;
            self.standing = Standing::Waits(time);
            return;
        }
        self.brings_long = is_long;
        self.standing = Standing::Hears;
        self.keep(most);
        self.hear_asked(time);
    }

    // Hears an input of which it was said how much is kept.
    fn hear_asked(&mut self, time: u64)
        requires input { IsInInput self.old.reader.at }
        requires hears { self.old.standing ≡ standing.Hears }
        ensures { HearsOn self.old self.new }
    {
        readings_go_on();
        readings_are_whole();
        match self.hear_some() {
            Next::Whole => self.standing = Standing::Asks(time),
            Next::More => {}
            Next::Fault => self.tell_fault(),
            Next::Words => unreachable!(),
        }
    }

    // How much of its input the command of the words that are there reads at most.
    fn wanted(&self) -> usize {
        match command_of(self.alloc, self.reader.words()) {
            Ok(command) => reads_most(&command),
            Err(_) => 0,
        }
    }

    // How many bytes the input that comes has.
    fn input_len(&self) -> usize {
        match self.reader.input_size() {
            Some(size) => size.len(),
            None => 0,
        }
    }

    // Has so much of the input kept that is asked for; where there is no memory for that, none of it.
    fn keep(&mut self, most: usize)
        requires asked { IsAsked self.old.reader.at }
        requires hears { self.old.standing ≡ standing.Hears }
        ensures { AsksFor self.old self.new }
    {
        if self.reader.keep(most).is_ok() {
            return;
        }
        if self.reader.keep(0).is_err() {
            unreachable!()
        }
    }

    // Hears the rest of what was brought, up to what there is to tell.
    fn hear_some(&mut self) -> Next
        requires { self.old.standing ≡ standing.Hears }
        ensures { HearsSome self.old self.new result }
    {
        let heard = self.reader.hear(&self.piece.as_slice()[self.at..]);
        self.at += heard.used;
        heard.next
    }

    /// The request that is there whole.
    pub fn request(&self) -> Option<Asked<'_>>
        ensures { MatchOption result (asks_since self.now.standing ≡ None) (IsAskedOn self.now) }
    {
        let Standing::Asks(_) = self.standing else {
            return None;
        };
        let (Some(size), Some(most)) = (self.reader.input_size(), self.reader.asked()) else {
            unreachable!()
        };
        Some(Asked {
            words: self.reader.words(),
            size,
            most,
            kept: self.reader.kept(),
        })
    }

    /// Answers the request that is there whole: what it came to, and what its output gets. Where there
    /// is no memory for the answer, it is that. It fails only where there is none for that either. Where
    /// no request is there nothing is done.
    pub fn answer(&mut self, came: &Outcome, shown: Vec<u8>) -> Result<(), AllocError>
        ensures { MatchOption (asks_since self.old.standing) (self.new ≡ self.old)
            (λ since. GetsAnswer came.now shown.items self.old self.new result) }
    {
        let Standing::Asks(_) = self.standing else {
            return Ok(());
        };
        self.standing = Standing::Hears;
        self.brings_long = false;
        match self.push_answer(came, shown) {
            Ok(()) => Ok(()),
            Err(AllocError) => {
                let nothing = Vec::new(self.alloc);
                self.push_answer(&Outcome::Memory, nothing)
            }
        }
    }

    // Tells that what came is no request. Where there is no memory for that, nothing is told.
    fn tell_fault(&mut self)
        ensures { FaultTold self.old self.new }
    {
        self.standing = Standing::Fault;
        let nothing = Vec::new(self.alloc);
        let _ = self.push_answer(&Outcome::NoRequest, nothing);
    }

    // Has an answer wait whole, or nothing of it.
    fn push_answer(&mut self, came: &Outcome, shown: Vec<u8>) -> Result<(), AllocError>
        ensures ok { OnOk result (self.new ≡ told_more self.old (spelled_answer came.now shown.items)) }
        ensures err { OnErr result (self.new ≡ self.old) }
    {
        let error = came.text();
        let error = error.as_bytes();
        let line = answer_line(came.status().number(), shown.len(), error.len());
        self.out.push_parts(line.as_bytes(), shown, error)
    }

    /// A front of what waits to go out; it is empty only where nothing waits.
    pub fn waiting(&self) -> &[u8]
        ensures front { result.now ≡ take (length result.now) self.now.waits }
        ensures some { 0 < length self.now.waits → 0 < length result.now }
    {
        self.out.front()
    }

    /// Lets so many bytes of it go, or all.
    pub fn pass(&mut self, count: usize)
        ensures { self.new ≡ record self.old { waits = drop count self.old.waits } }
    {
        self.out.pass(count.min(self.out.len()));
    }

    /// Watches the inbox from this place on.
    pub fn watch(&mut self, from: u32)
        ensures { self.new ≡ record self.old { watch = Some from } }
    {
        self.watch = Some(from);
    }

    /// Whether it watches the inbox.
    pub fn watches(&self) -> bool
        ensures { result ≡ is_some self.now.watch }
    {
        self.watch.is_some()
    }

    /// The place from which on it is to be told lines of the inbox, which has so many: where it watches
    /// it, there are such, and nothing waits to go out.
    pub fn wants_lines(&self, delivered: u32) -> Option<u32>
        ensures { result ≡ wants_lines self.now delivered }
    {
        match self.watch {
            Some(from) if from < delivered && self.out.is_empty() => Some(from),
            _ => None,
        }
    }

    /// Tells lines of the inbox from the place on that it watches, and says whether they wait: they do
    /// not where there is no memory, and where it watches nothing; nothing has changed then.
    pub fn tell_lines(&mut self, lines: &[u8]) -> bool
        ensures { MatchBool result (TellsLines lines.now self.old self.new) (self.new ≡ self.old) }
    {
        let Some(from) = self.watch else {
            return false;
        };
        let Some(behind) = place_behind(from, lines_in(lines)) else {
            return false;
        };
        let told = self.tell("deliver", from, lines);
        if told {
            self.watch = Some(behind);
        }
        told
    }

    /// Has a notice wait whole, and says whether it does: it does not where there is no memory, and then
    /// nothing has changed.
    pub fn tell(&mut self, word: &str, number: u32, bytes: &[u8]) -> bool
        ensures { TellsNotice word.now number bytes.now self.old self.new result }
    {
        match notice_of(self.alloc, word, number, bytes) {
            Ok(notice) => self.out.push_parts(&[], notice, &[]).is_ok(),
            Err(AllocError) => false,
        }
    }

    /// Whether nothing more is to be done on it: all has gone out, and nothing that could be asked
    /// comes any more. Who watches is told on until it has gone.
    pub fn is_over(&self) -> bool
        ensures { result ≡ is_over self.now }
    {
        self.out.is_empty()
            && match self.standing {
                Standing::Hears => {
                    self.has_ended && self.at >= self.piece.len() && self.watch.is_none()
                }
                Standing::Waits(_) | Standing::Asks(_) => false,
                Standing::Fault => true,
            }
    }
}
