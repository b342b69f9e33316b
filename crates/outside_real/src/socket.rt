//! A link over a socket.
ghost use Rattle.std.specs.Prelude.{◌<◌, length};
ghost use Rattle.std.specs.Io.{WritesAtMost};
ghost use Rattle.outside_real.specs.Heard.{FitsBuffer};

use crate::inbox::Inbox;
use crate::stream::Stream;
use outside::Heard;
use std::alloc::Global;
use std::io;
use std::io::ErrorKind;
use std::net::Net;
use std::time::{Clock, Duration, Instant};

// How long one read waits for the peer, and one write.
const READ_MILLISECONDS: u64 = 100;

const WRITE_MILLISECONDS: u64 = 10;

// How many writes one send makes at most: half a minute of waits, where each is as long as asked.
const MOST_WRITES: u32 = 3_000;

// How long a peer has for each part of a send, of so many bytes or what is left of them, and how far
// it may fall behind that in all. A part is about as long as the longest note.
const SEND_MILLISECONDS: u64 = 100;

const PART_BYTES: usize = 32_768;

const MOST_BEHIND_MILLISECONDS: u64 = 30_000;

/// A socket, and what was heard on it while it could not send. Its peer has 100 ms for each 32,768
/// bytes of a send, and for what is left of them, and may be half a minute behind that in all; a send
/// that is done sooner makes up for others.
#[derive(Drop)]
pub struct Socket<R: Net> {
    stream: Stream<R>,
    inbox: Inbox,
    behind: u64,
}

impl<R: Net> Socket<R> {
    /// A link over this stream.
    pub fn new(alloc: Global, stream: Stream<R>) -> io::Result<Socket<R>> {
        stream.set_waits(
            Duration::from_millis(READ_MILLISECONDS),
            Duration::from_millis(WRITE_MILLISECONDS),
        )?;
        Ok(Socket {
            stream,
            inbox: Inbox::new(alloc),
            behind: 0,
        })
    }

    /// Hears on the link, into the front of `buf`; `Idle` where nothing came for 100 ms.
    pub fn hear(&mut self, buf: &mut [u8]) -> Heard
        requires { 0 < length buf.old }
        ensures { FitsBuffer (length buf.new) result }
    {
        if !self.inbox.is_empty() {
            return Heard::Got(self.inbox.take(buf));
        }
        match self.stream.read(buf) {
            Ok(0) => Heard::End,
            Ok(n) => Heard::Got(n),
            Err(e) if is_pause(&e) => Heard::Idle,
            Err(_) => Heard::Failed,
        }
    }

    /// Sends all bytes. Fails where the peer has fallen half a minute behind; then nothing is made
    /// up for any more, and neither is a later send waited for.
    pub fn send(&mut self, clock: &impl Clock, bytes: &[u8]) -> io::Result<()> {
        let start = Instant::now(clock)?;
        let given = time_for(bytes.len());
        let mut left = bytes;
        let mut waited = 0;
        for _ in 0..MOST_WRITES {
            let n = self.write(left)?;
            left = &left[n..];
            if left.is_empty() {
                self.behind = self.behind_after(waited, given);
                return Ok(());
            }
            waited = milliseconds(start.elapsed(clock)?);
            if self.behind_after(waited, given) >= MOST_BEHIND_MILLISECONDS {
                break;
            }
        }
        self.behind = MOST_BEHIND_MILLISECONDS;
        Err(ErrorKind::TimedOut.into())
    }

    // How far the peer is behind, in milliseconds, once a send has taken so long that was given so
    // long.
    fn behind_after(&self, waited: u64, given: u64) -> u64 {
        let spent = self.behind.saturating_add(waited);
        spent.saturating_sub(given)
    }

    // Writes a front of the bytes. Where none could be written, what the peer sends is read ahead,
    // since it may be waiting for that itself.
    fn write(&mut self, bytes: &[u8]) -> io::Result<usize>
        ensures { WritesAtMost result bytes.now }
    {
        match self.stream.write(bytes) {
            Err(e) if is_pause(&e) => {
                self.read_ahead()?;
                Ok(0)
            }
            answer => answer,
        }
    }

    // Reads ahead what is there, without a wait.
    fn read_ahead(&mut self) -> io::Result<()> {
        if self.inbox.is_full() {
            return Ok(());
        }
        self.stream.set_nonblocking(true)?;
        let answer = self.inbox.fill(&mut self.stream);
        self.stream.set_nonblocking(false)?;
        match answer {
            Err(e) if is_pause(&e) => Ok(()),
            answer => answer,
        }
    }
}

// The wait was over, or a signal came. `TimedOut` is another thing: a connection that was lost.
fn is_pause(e: &io::Error) -> bool {
    matches!(e.kind(), ErrorKind::WouldBlock | ErrorKind::Interrupted)
}

// How long a peer has for a send of so many bytes, in milliseconds.
fn time_for(len: usize) -> u64 {
    let parts = (len / PART_BYTES) as u64;
    parts.saturating_add(1).saturating_mul(SEND_MILLISECONDS)
}

// A time in milliseconds.
fn milliseconds(time: Duration) -> u64 {
    u64::try_from(time.as_millis()).unwrap_or(u64::MAX)
}
