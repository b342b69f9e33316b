//! A standard stream that is read before it is asked for.
ghost use Rattle.std.specs.Prelude.{◌≡◌, ◌≤◌, length, IfSome};

use crate::streams::read_once;
use outside::{Failed, Source};
use std::alloc::{AllocError, Global};
use std::io::Read;

// How many bytes are read early in one piece. Memory of this size goes back to the system, one piece
// after the other as they are taken.
const PIECE: usize = 262_144;

/// What comes behind the bytes that were read early.
#[derive(Clone, Copy, PartialEq, Eq)]
enum Rest {
    /// What the stream still has.
    Stream,
    /// Nothing: it has ended.
    End,
    /// A failure.
    Failure,
}

/// A source over a reader, of which a front may be read before it is asked for. It answers as if it
/// were read when it is asked, and tells its failures alone. What was read early takes memory until
/// it was taken, and no longer.
#[derive(Drop)]
pub struct EarlySource<R: Read + Drop> {
    alloc: Global,
    from: R,
    pieces: Vec<Vec<u8>>,
    piece: usize,
    at: usize,
    rest: Rest,
    faults: u64,
}

impl<R: Read + Drop> EarlySource<R> {
    /// A source that reads `from`, of which nothing was read yet.
    pub fn new(alloc: Global, from: R) -> EarlySource<R> {
        EarlySource {
            alloc,
            from,
            pieces: Vec::new(alloc),
            piece: 0,
            at: 0,
            rest: Rest::Stream,
            faults: 0,
        }
    }

    /// Reads up to so many bytes more, or to the end, or up to a failure. It takes memory as bytes
    /// come.
    pub fn read_early(&mut self, most: usize) -> Result<(), AllocError> {
        let mut left = most;
        'pieces: while left > 0 && self.rest == Rest::Stream {
            let wanted = left.min(PIECE);
            let mut piece = vec![in self.alloc; 0u8; wanted]?;
            let (n, rest) = read_front(&mut self.from, piece.as_mut_slice());
            piece.truncate(n);
            self.rest = rest;
            if n > 0 {
                self.pieces.push(piece)?;
            }
            left -= wanted;
        }
        Ok(())
    }

    /// What was read early, piece by piece, where nothing of it was taken yet.
    pub fn early(&self) -> &[Vec<u8>] {
        self.pieces.as_slice()
    }

    /// How many bytes were read early.
    pub fn early_len(&self) -> usize {
        let mut len: usize = 0;
        for piece in self.pieces.as_slice() {
            len = len.saturating_add(piece.len());
        }
        len
    }

    /// Whether a read failed behind what was read early.
    pub fn has_failed(&self) -> bool {
        self.rest == Rest::Failure
    }

    // Takes bytes of those that were read early, into the front of `buf`, and says how many; none
    // where all were taken.
    fn take_early(&mut self, buf: &mut [u8]) -> Option<usize>
        ensures bound { IfSome result (λ n. n ≤ length buf.new) }
        ensures faults { self.new.faults ≡ self.old.faults }
    {
        let piece = self.pieces.get_mut(self.piece)?;
        let left = &piece[self.at.min(piece.len())..];
        let n = left.len().min(buf.len());
        buf[..n].copy_from_slice(&left[..n]);
        self.at += n;
        if self.at >= piece.len() {
            *piece = Vec::new(self.alloc);
            self.piece += 1;
            self.at = 0;
        }
        Some(n)
    }
}

// Reads until the buffer is full or nothing comes any more, and says how many bytes, and what comes
// behind them.
fn read_front<R: Read>(from: &mut R, buf: &mut [u8]) -> (usize, Rest)
    ensures { result.0 ≤ length buf.new }
{
    let mut done = 0;
    'pieces: while done < buf.len() {
        match read_once(from, &mut buf[done..]) {
            Ok(0) => return (done, Rest::End),
            Ok(n) => done += n,
            Err(_) => return (done, Rest::Failure),
        }
    }
    (done, Rest::Stream)
}

impl<R: Read + Drop> Source for EarlySource<R> {
    ghost use Rattle.std.specs.Prelude.{None};

    ghost tells = { λ s. record { bytes = None; faults = s.faults } };

    fn read(&mut self, buf: &mut [u8]) -> Result<usize, Failed> {
        if let Some(n) = self.take_early(buf) {
            return Ok(n);
        }
        let answer = match self.rest {
            Rest::Stream => read_once(&mut self.from, buf).ok(),
            Rest::End => Some(0),
            Rest::Failure => None,
        };
        match answer {
            Some(n) => Ok(n),
            None => {
                self.faults = self.faults.saturating_add(1);
                Err(Failed)
            }
        }
    }
}
