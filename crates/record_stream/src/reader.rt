//! The reader of a stream.
ghost use Rattle.std.specs.Prelude.{◌≡◌, ◌≢◌, ℕ, ◌-◌, ◌<◌, ◌++◌, List, [], min, length, take};
ghost use Rattle.std.specs.Prelude.{IfOk, OnOk, OnErr, true, if◌then◌else◌};
ghost use Rattle.record_grammar.specs.Reading.{found_in};
ghost use Rattle.record_grammar.specs.Stream.{IsRest, ending, items};
ghost use Rattle.record_stream.specs.Reading.{AwaitsBytes, EndsBad, ReadsOn, after, fresh_reader};
ghost use Rattle.record_grammar.specs.declared.front.Reason.{Reason};

use crate::piece::Piece;
use record_grammar::{Ending, Found, HEADER_LEN, MAX_RECORD, Reason, ending_of, read_one};
use std::alloc::{AllocError, Global};
use std::marker::Model;
use sync_ids::Record;

/// How many bytes a reader holds at most: those of the longest record.
pub const BUFFER_LEN: usize = MAX_RECORD;

/// What stands next in a stream. The first number is its place, from 0; one past 2^64 - 1 counts as
/// 2^64 - 1.
#[derive(Debug, Drop)]
pub enum Next {
    /// A record.
    One(u64, Record),
    /// A record of another type: its byte of type, and its payload's length.
    Skipped(u64, u8, u64),
    /// Nothing is decided before more bytes come.
    More,
    /// No record.
    Bad(u64, Reason),
}

/// A reader of a stream that comes in pieces. Contracts see its place in the stream, the bytes that
/// it holds, and whether `next` has answered `Bad`.
#[derive(Drop)]
pub struct Reader {
    alloc: Global,
    buffer: Vec<u8>,
    start: usize,
    end: usize,
    place: u64,
    failed: bool,
}

impl Model for Reader {
    ghost use Rattle.std.specs.Prelude.{◌-◌, take, drop};
    ghost use Rattle.record_stream.specs.Reading.{IsReaderSound, ReaderState};

    ghost Value = { ReaderState };

    ghost view = { λ r. record {
      place = r.place;
      bytes = take (r.end - r.start)
          (drop r.start r.buffer.items);
      failed = r.failed;
    } };

    ghost invariant = { λ r. IsReaderSound r.buffer.items r.start r.end r.place r.failed };
}

fn zeros(alloc: Global, len: usize) -> Result<Vec<u8>, AllocError>
    ensures { IfOk result (λ v. length v.items ≡ len) }
{
    vec![in alloc; 0u8; len]
}

impl Reader {
    ghost use Rattle.record_stream.specs.Answers.{LeavesAt, LeavesOf, next_of, told_by};

    /// A reader at the start of a stream. It takes its whole buffer of 49,156 bytes here, and
    /// nothing else later; it fails only for want of memory.
    pub fn new(alloc: Global) -> Result<Reader, AllocError>
        ensures fresh { IfOk result (λ r. r ≡ fresh_reader) }
        ensures waits { IfOk result (λ r. AwaitsBytes r) }
    {
        Ok(Reader {
            alloc,
            buffer: zeros(alloc, BUFFER_LEN)?,
            start: 0,
            end: 0,
            place: 0,
            failed: false,
        })
    }

    /// Takes as many bytes of the piece's front as there is room for, and answers how many; 0 once
    /// `next` has answered `Bad`. It takes no memory.
    pub fn feed(&mut self, piece: &[u8]) -> usize
        ensures count { result ≡ (if self.old.failed then 0 else min (length piece.now)
            (BUFFER_LEN - length self.old.bytes)) }
        ensures taken { self.new ≡ record self.old {
          bytes = self.old.bytes ++ take result
              piece.now;
        } }

        // Where it takes nothing of a piece, nothing that comes changes what the stream has.
        ensures dropped { self.old.failed ≡ true
            → (why : Reason) × EndsBad self.old self.old.place why }
    {
        if self.failed {
            return 0;
        }
        let held = self.end - self.start;
        if self.start > 0 {
            self.buffer
                .as_mut_slice()
                .copy_within(self.start..self.end, 0);
            self.start = 0;
            self.end = held;
        }
        let count = piece.len().min(BUFFER_LEN - held);
        let end = self.end;
        self.buffer.as_mut_slice()[end..end + count].copy_from_slice(&piece[..count]);
        self.end = end + count;
        count
    }

    /// What stands next, taken off the bytes held. It fails only for want of memory, and then the
    /// reader is as it was. After `Bad` it answers that same `Bad` for good.
    pub fn next(&mut self) -> Result<Next, AllocError>
        ensures answer { IfOk result
            (λ next. next ≡ next_of self.old.place (found_in self.old.bytes)) }
        ensures after { OnOk result (self.new ≡ after self.old (found_in self.old.bytes)) }
        ensures stream { IfOk result (λ next. ReadsOn [] self.old (told_by next) [] self.new) }
        ensures left { IfOk result (λ next. LeavesAt next self.old self.new) }
        ensures err { OnErr result (self.new ≡ self.old) }
    {
        let place = self.place;
        match read_one(self.alloc, &self.buffer.as_slice()[self.start..self.end])? {
            Found::One(record, used) => {
                self.start += used;
                self.place = place.saturating_add(used as u64);
                Ok(Next::One(place, record))
            }
            Found::Skipped(type_byte, used) => {
                self.start += used;
                self.place = self.place.saturating_add(used as u64);
                Ok(Next::Skipped(place, type_byte, (used - HEADER_LEN) as u64))
            }
            Found::More => Ok(Next::More),
            Found::Bad(reason) => {
                self.failed = true;
                Ok(Next::Bad(place, reason))
            }
        }
    }

    /// What stands next in the stream, of which this piece comes next: as `next` answers it of the
    /// bytes held and of as much of the piece as it takes. The piece keeps what is left of it, and
    /// after `More` and `Bad` nothing is left. It fails only for want of memory, and then no byte
    /// and no item is lost.
    pub fn next_in(&mut self, piece: &mut Piece) -> Result<Next, AllocError>
        ensures stream { IfOk result
            (λ next. ReadsOn piece.old self.old (told_by next) piece.new self.new) }
        ensures left { IfOk result
            (λ next. LeavesOf next piece.old self.old piece.new self.new) }
        ensures err { OnErr result (ReadsOn piece.old self.old [] piece.new self.new) }
    {
        'feeds: loop {
            match self.next()? {
                Next::One(place, record) => return Ok(Next::One(place, record)),
                Next::Skipped(place, type_byte, len) => {
                    return Ok(Next::Skipped(place, type_byte, len));
                }
                Next::More => {
                    if piece.left().is_empty() {
                        return Ok(Next::More);
                    }
                    let count = self.feed(piece.left());
                    piece.pass(count);
                }
                Next::Bad(place, reason) => {
                    piece.pass(piece.left().len());
                    return Ok(Next::Bad(place, reason));
                }
            }
        }
    }

    /// How the stream ends, if nothing more comes. No whole record and no skipped one stands at the
    /// front of the bytes held, as after `next` answered `More` or `Bad`. It takes no memory.
    pub fn end(&self) -> Ending
        requires { IsRest self.now.bytes }
        ensures ending { result ≡ ending self.now.place self.now.bytes }
        ensures nothing { items self.now.place self.now.bytes ≡ [] }
    {
        ending_of(self.place, &self.buffer.as_slice()[self.start..self.end])
    }
}
