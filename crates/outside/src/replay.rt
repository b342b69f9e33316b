//! One file of a disk in memory with what is pending in it.
ghost use Rattle.std.specs.Prelude.{◌≡◌, ℕ, ◌<◌, ◌≤◌, min, IfOk, OnOk, take, vec_len, length};
ghost use Rattle.outside.specs.Files.{is_written};
ghost use Rattle.outside.specs.Disk.{overwritten, after_write, after_cut};
ghost use Rattle.outside.specs.MemDisk.{kept, change_of, put, after_wrote, after_wrote_not};
ghost use Rattle.outside.specs.MemImage.{one_changed, left_at, IsFilled, same_file};

use crate::Call;
use crate::mem_disk::put_bytes;
use std::alloc::{AllocError, Global};
use std::marker::Model;

/// A file as it reads, as it was at the last sync, and with all its writes and cuts made; the
/// ranges written since that sync, and the least and the greatest length.
#[derive(Drop)]
pub struct Replay {
    alloc: Global,
    reads: Vec<u8>,
    synced: Vec<u8>,
    whole: Vec<u8>,
    written: Vec<(usize, usize)>,
    least: usize,
    greatest: usize,
}

impl Model for Replay {
    ghost use Rattle.outside.specs.MemDisk.{KeptFile};

    ghost Value = { KeptFile };

    ghost view = { λ r. record {
      file = record {
        now = r.reads.items;
        synced = r.synced.items;
        written =
            r.written.items;
        least = r.least;
        greatest = r.greatest;
      };
      whole = r.whole.items;
    } };
}

// Whether two numbers name one file.
pub fn is_same(a: u8, b: u8) -> bool
    ensures { result ≡ same_file a b }
{
    match (a, b) {
        (0, 0) => true,
        (0, _) | (_, 0) => false,
        _ => true,
    }
}

impl Replay {
    /// A file in which nothing is pending.
    pub fn new(alloc: Global, bytes: Vec<u8>) -> Result<Replay, AllocError>
        ensures { IfOk result (λ r. r ≡ kept bytes.items) }
    {
        let len = bytes.len();
        let synced = Vec::from_slice(alloc, &bytes)?;
        let whole = Vec::from_slice(alloc, &bytes)?;
        Ok(Replay {
            alloc,
            reads: bytes,
            synced,
            whole,
            written: Vec::new(alloc),
            least: len,
            greatest: len,
        })
    }

    /// The file after one call more.
    pub fn apply(&mut self, call: &Call, file: u8) -> Result<(), AllocError>
        ensures { OnOk result (self.new ≡ one_changed file self.old (change_of call.now)) }
    {
        match call {
            Call::Wrote(other, at, bytes) if is_same(*other, file) => {
                self.write(*at as usize, bytes)
            }
            Call::WroteNot(other, at, bytes) if is_same(*other, file) => {
                self.write_not(*at as usize, bytes)
            }
            Call::Cut(other, len) if is_same(*other, file) => {
                self.cut(*len as usize);
                Ok(())
            }
            Call::CutNot(other, len) if is_same(*other, file) => {
                self.cut_not(*len as usize);
                Ok(())
            }
            Call::Synced(other) if is_same(*other, file) => self.sync(),
            _ => Ok(()),
        }
    }

    fn write(&mut self, at: usize, bytes: &[u8]) -> Result<(), AllocError>
        ensures { OnOk result (self.new ≡ after_wrote self.old at bytes.now) }
    {
        let at = at.min(self.reads.len());
        self.pend(at, bytes)?;
        put_bytes(&mut self.reads, at, bytes)
    }

    fn write_not(&mut self, at: usize, bytes: &[u8]) -> Result<(), AllocError>
        ensures { OnOk result (self.new ≡ after_wrote_not self.old at bytes.now) }
    {
        let at = at.min(self.reads.len());
        self.pend(at, bytes)
    }

    // A write that is pending and not read.
    fn pend(&mut self, at: usize, bytes: &[u8]) -> Result<(), AllocError>
        requires { at ≤ length self.old.file.now }
        ensures { OnOk result
            (self.new ≡ record {
              file = after_write self.old.file at (length bytes.now)
                  self.old.file.now;
              whole = put self.old.whole at bytes.now;
            }) }
    {
        let _len = self.reads.len();
        self.written.push((at, bytes.len()))?;
        self.greatest = self.greatest.max(at + bytes.len());
        put_padded(&mut self.whole, at, bytes)
    }

    fn cut(&mut self, len: usize)
        ensures { self.new ≡ record {
          file = after_cut self.old.file len
              (take len self.old.file.now);
          whole = take len self.old.whole;
        } }
    {
        self.reads.truncate(len);
        self.cut_not(len);
    }

    fn cut_not(&mut self, len: usize)
        ensures { self.new ≡ record {
          file = after_cut self.old.file len self.old.file.now;
          whole =
              take len self.old.whole;
        } }
    {
        self.whole.truncate(len);
        self.least = self.least.min(len);
    }

    fn sync(&mut self) -> Result<(), AllocError>
        ensures { OnOk result (self.new ≡ kept self.old.file.now) }
    {
        self.synced = Vec::from_slice(self.alloc, &self.reads)?;
        self.whole = Vec::from_slice(self.alloc, &self.reads)?;
        self.written.clear();
        self.least = self.reads.len();
        self.greatest = self.reads.len();
        Ok(())
    }

    /// The bytes of the last sync.
    pub fn into_synced(self) -> Vec<u8>
        ensures { result.items ≡ self.file.synced }
    {
        self.synced
    }

    /// The bytes with all writes and cuts made.
    pub fn into_whole(self) -> Vec<u8>
        ensures { result.items ≡ self.whole }
    {
        self.whole
    }

    /// The greatest length, with this byte at each place that is not synced.
    pub fn filled(&self, byte: u8) -> Result<Vec<u8>, AllocError>
        ensures { IfOk result (λ v. IsFilled byte self.now.file v.items) }
    {
        let mut bytes = Vec::new(self.alloc);
        for place in 0..self.greatest {
            bytes.push(self.left_at(byte, place))?;
        }
        Ok(bytes)
    }

    fn left_at(&self, byte: u8, place: usize) -> u8
        ensures { result ≡ left_at byte self.now.file place }
    {
        if place < self.least && !self.is_written(place) {
            self.synced.get(place).copied().unwrap_or(0)
        } else {
            byte
        }
    }

    fn is_written(&self, place: usize) -> bool
        ensures { result ≡ is_written self.now.file.written place }
    {
        self.written.iter().any(|range| range.0 <= place
            && (place as u128) < range.0 as u128 + range.1 as u128)
    }
}

// Puts bytes over those from a place on, with zeros up to it where there are fewer.
fn put_padded(to: &mut Vec<u8>, at: usize, bytes: &[u8]) -> Result<(), AllocError>
    ensures { OnOk result (to.new.items ≡ put to.old.items at bytes.now) }
{
    if to.len() < at {
        to.resize(at, 0)?;
    }
    put_bytes(to, at, bytes)
}
