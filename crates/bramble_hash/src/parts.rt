//! The digest of several parts.

ghost use Rattle.std.specs.Prelude.{◌≡◌, ℕ, ◌+◌, ◌-◌, ◌^◌, ◌<◌, ◌++◌, List, [], ◌∷◌, length};
ghost use Rattle.bramble_hash.specs.Parts.{HoldsParts, PreimagesDiffer, hash};

use crate::hasher::Blake2b;
use std::marker::Model;

/// BLAKE2b-256 of a list of parts: of each, its length in four bytes, high byte first, and its
/// bytes.
#[derive(Drop)]
pub struct Parts {
    hasher: Blake2b<32>,
}

impl Model for Parts {
    ghost use Rattle.bramble_hash.specs.Blake2b.{State};

    ghost Value = { State };

    ghost view = { λ p. p.hasher };
}

impl Parts {
    /// No parts yet.
    pub fn new() -> Self
        ensures count { result.count ≡ 0 }
        ensures holds { HoldsParts result [] }
    {
        Parts {
            hasher: Blake2b::new(),
        }
    }

    /// Adds a part of fewer than 2^32 bytes. All parts and their lengths together are below 2^64 -
    /// 128.
    pub fn part(&mut self, bytes: &[u8])
        requires length { length bytes.now < 2 ^ 32 }
        requires room { self.old.count + 4 + length bytes.now < 2 ^ 64 - 128 }
        ensures count { self.new.count ≡ self.old.count + 4 + length bytes.now }
        ensures holds { (parts : List (List ℕ)) → HoldsParts self.old parts
            → HoldsParts self.new (parts ++ bytes.now ∷ []) }
    {
        let len = bytes.len() as u32;
        self.hasher.update(&len.to_be_bytes());
        self.hasher.update(bytes);
    }

    /// The digest of the parts.
    pub fn finish(self) -> [u8; 32]
        ensures { (parts : List (List ℕ)) → HoldsParts self parts → result ≡ hash parts }
    {
        self.hasher.finalize()
    }
}

/// No two lists of parts, each part below 2^32 bytes, have the same bytes hashed.
pub fn parts_have_one_reading()
    ensures { PreimagesDiffer }
{}
