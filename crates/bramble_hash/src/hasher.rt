//! A message taken in piece by piece.

ghost use Rattle.std.specs.Prelude.{◌≡◌, ℕ, ◌+◌, ◌-◌, ◌*◌, ◌^◌, ◌<◌, ◌≤◌, ◌↔◌, ◌++◌, List, []};
ghost use Rattle.std.specs.Prelude.{length, take, replicate, IsErr, IfOk};
ghost use Rattle.bramble_hash.specs.Blake2b.{Holds, blake2b, padded};

use crate::block::{BLOCK_LEN, bytes_of, compress, initial};
use std::marker::Model;

/// A key of more than 64 bytes (RFC 7693, 2.1).
#[derive(Clone, Copy, Debug, PartialEq, Eq)]
pub struct KeyTooLong;

/// A hasher of BLAKE2b with a digest of `OUT` bytes, 1 to 64 (RFC 7693).
#[derive(Drop)]
pub struct Blake2b<const OUT: usize> {
    h: [u64; 8],
    // The last block so far: it is not compressed before more bytes come, since it may be the last.
    buffer: [u8; 128],
    kept: usize,
    // How many bytes are compressed.
    done: u64,
}

impl<const OUT: usize> Model for Blake2b<OUT> {
    ghost use Rattle.std.specs.Prelude.{◌+◌, ◌^◌, ◌<◌, ◌≤◌, take};
    ghost use Rattle.bramble_hash.specs.Blake2b.{State};

    ghost Value = { State };

    ghost view = { λ s. record { h = s.h; kept = take s.kept s.buffer; count = s.done + s.kept } };

    ghost invariant = { λ s. (OUT ≤ 64) × (s.kept ≤ 128) × (s.done + s.kept < 2 ^ 64) };
}

// Zeros from `kept` on.
fn pad(buffer: &mut [u8; 128], kept: usize)
    requires { kept ≤ 128 }
    ensures { buffer.new ≡ padded (take kept buffer.old) }
{
    buffer[kept..].fill(0);
}

// The first `N` bytes.
fn first_bytes<const N: usize>(bytes: &[u8; 64]) -> [u8; N]
    requires { N ≤ 64 }
    ensures { result ≡ take N bytes.now }
{
    let mut out = [0u8; N];
    'bytes: for i in 0..N {
        out[i] = bytes[i];
    }
    out
}

impl<const OUT: usize> Blake2b<OUT> {
    /// A hasher without a key, which holds no bytes yet.
    pub fn new() -> Self
        requires least { 1 ≤ OUT }
        requires most { OUT ≤ 64 }
        ensures count { result.count ≡ 0 }
        ensures holds { Holds OUT result [] [] }
    {
        Blake2b {
            h: initial(OUT, 0),
            buffer: [0; 128],
            kept: 0,
            done: 0,
        }
    }

    /// A hasher with a key of at most 64 bytes; an empty key is none. A longer key is `KeyTooLong`
    /// (RFC 7693, 2.1).
    pub fn keyed(key: &[u8]) -> Result<Self, KeyTooLong>
        requires least { 1 ≤ OUT }
        requires most { OUT ≤ 64 }
        ensures too_long { IsErr result ↔ (64 < length key.now) }
        ensures count { IfOk result (λ s. s.count ≤ 128) }
        ensures holds { IfOk result (λ s. Holds OUT s key.now []) }
    {
        if key.len() > 64 {
            return Err(KeyTooLong);
        }
        let mut buffer = [0u8; 128];
        let mut kept = 0;
        if !key.is_empty() {
            buffer[..key.len()].copy_from_slice(key);
            kept = BLOCK_LEN;
        }
        Ok(Blake2b {
            h: initial(OUT, key.len()),
            buffer,
            kept,
            done: 0,
        })
    }

    /// Adds bytes to the message. All bytes together, the key's block of 128 included, are below
    /// 2^64 - 128.
    pub fn update(&mut self, bytes: &[u8])
        requires { self.old.count + length bytes.now < 2 ^ 64 - 128 }
        ensures count { self.new.count ≡ self.old.count + length bytes.now }
        ensures holds { (key before : List ℕ) → Holds OUT self.old key before
            → Holds OUT self.new key (before ++ bytes.now) }
    {
        let kept = self.kept;
        let room = BLOCK_LEN - kept;
        if bytes.len() <= room {
            self.buffer[kept..kept + bytes.len()].copy_from_slice(bytes);
            self.kept = kept + bytes.len();
            return;
        }
        self.buffer[kept..].copy_from_slice(&bytes[..room]);
        self.done += 128;
        compress(&mut self.h, &self.buffer, self.done, false);
        // The last block stays, even where it is whole: only `finalize` may mark it.
        let whole = (bytes.len() - room - 1) / BLOCK_LEN;
        'blocks: for i in 0..whole {
            let at = room + BLOCK_LEN * i;
            self.done += 128;
            compress(&mut self.h, &bytes[at..at + BLOCK_LEN], self.done, false);
        }
        let tail = &bytes[room + BLOCK_LEN * whole..];
        self.buffer[..tail.len()].copy_from_slice(tail);
        self.kept = tail.len();
    }

    /// The digest of all bytes given (RFC 7693, 3.3).
    pub fn finalize(self) -> [u8; OUT]
        ensures { (key bytes : List ℕ) → Holds OUT self.entry key bytes
            → result ≡ blake2b OUT key bytes }
    {
        let kept = self.kept;
        let mut buffer = self.buffer;
        pad(&mut buffer, kept);
        let count = self.done + kept as u64;
        let mut h = self.h;
        compress(&mut h, &buffer, count, true);
        first_bytes(&bytes_of(&h))
    }
}
