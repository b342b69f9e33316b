//! Standard streams as sources and sinks.
ghost use Rattle.std.specs.Prelude.{ℕ, ◌<◌, ◌≤◌, length, IfOk};

use crate::lock::Lock;
use outside::{Failed, Sink, Source};
use std::io;
use std::io::{ErrorKind, Read, Write};
use std::rc::Rc;

/// A source over a reader. It tells its failures alone, and not what bytes are left.
#[derive(Drop)]
pub struct StdSource<R: Read + Drop> {
    from: R,
    faults: u64,
}

impl<R: Read + Drop> StdSource<R> {
    /// A source that reads `from`.
    pub fn new(from: R) -> StdSource<R> {
        StdSource { from, faults: 0 }
    }
}

impl<R: Read + Drop> Source for StdSource<R> {
    ghost use Rattle.std.specs.Prelude.{None};

    ghost tells = { λ s. record { bytes = None; faults = s.faults } };

    fn read(&mut self, buf: &mut [u8]) -> Result<usize, Failed> {
        match read_once(&mut self.from, buf) {
            Ok(n) => Ok(n),
            Err(_) => {
                self.faults = self.faults.saturating_add(1);
                Err(Failed)
            }
        }
    }
}

/// A sink over a writer. It tells its failures alone, and not what bytes it took. Before its first
/// write it lets go of the locks that it was handed, so that nobody waits for who reads it.
#[derive(Drop)]
pub struct StdSink<W: Write + Drop> {
    to: W,
    lock: Option<Rc<Lock>>,
    faults: u64,
}

impl<W: Write + Drop> StdSink<W> {
    /// A sink that writes to `to`.
    pub fn new(to: W) -> StdSink<W> {
        StdSink {
            to,
            lock: None,
            faults: 0,
        }
    }

    /// Lets go of these locks before the next write.
    pub fn let_go_first(&mut self, lock: Option<Rc<Lock>>) {
        self.lock = lock;
    }
}

impl<W: Write + Drop> Sink for StdSink<W> {
    ghost use Rattle.std.specs.Prelude.{None};

    ghost tells = { λ s. record { bytes = None; faults = s.faults } };

    fn write(&mut self, bytes: &[u8]) -> Result<usize, Failed> {
        if let Some(lock) = self.lock.take() {
            lock.let_go();
        }
        match write_once(&mut self.to, bytes) {
            Ok(n) => Ok(n),
            Err(_) => {
                self.faults = self.faults.saturating_add(1);
                Err(Failed)
            }
        }
    }
}

// A read that no signal interrupted.
pub(crate) fn read_once<R: Read>(from: &mut R, buf: &mut [u8]) -> io::Result<usize>
    ensures { IfOk result (λ n. n ≤ length buf.new) }
{
    for _ in 0..u64::MAX {
        match from.read(buf) {
            Err(e) if e.kind() == ErrorKind::Interrupted => {}
            answer => return answer,
        }
    }
    Err(ErrorKind::Interrupted.into())
}

// A write that no signal interrupted. One that took nothing has failed.
pub(crate) fn write_once<W: Write>(to: &mut W, bytes: &[u8]) -> io::Result<usize>
    ensures bound { IfOk result (λ n. n ≤ length bytes.now) }
    ensures some { 0 < length bytes.now → IfOk result (λ n. 0 < n) }
{
    for _ in 0..u64::MAX {
        match to.write(bytes) {
            Ok(0) if !bytes.is_empty() => return Err(ErrorKind::WriteZero.into()),
            Err(e) if e.kind() == ErrorKind::Interrupted => {}
            answer => return answer,
        }
    }
    Err(ErrorKind::Interrupted.into())
}

// Reads until the buffer is full or nothing is left.
pub(crate) fn read_full<R: Read>(from: &mut R, buf: &mut [u8]) -> io::Result<usize>
    ensures { IfOk result (λ n. n ≤ length buf.new) }
{
    let mut done = 0;
    'pieces: while done < buf.len() {
        match read_once(from, &mut buf[done..])? {
            0 => break,
            n => done += n,
        }
    }
    Ok(done)
}

// Writes all bytes.
pub(crate) fn write_full<W: Write>(to: &mut W, bytes: &[u8]) -> io::Result<()> {
    let mut done = 0;
    'pieces: while done < bytes.len() {
        done += write_once(to, &bytes[done..])?;
    }
    Ok(())
}
