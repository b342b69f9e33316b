//! Frames that wait in memory, to be added to a journal together.
ghost use Rattle.std.specs.Prelude.{◌≡◌, ◌+◌, ◌≤◌, ◌==◌, ◌++◌, [], ◌∷◌, length, nat_le, List, ℕ};
ghost use Rattle.std.specs.Prelude.{IfOk};
ghost use Rattle.frame_journal.specs.Append.{IsFramed, payload_of};
ghost use Rattle.frame_journal.specs.Group.{IsJoined};

use std::alloc::{AllocError, Global};
use std::marker::Model;

/// How many bytes the frames that wait in a group take at most.
pub const MAX_GROUP: usize = 1_048_576;

/// Frames that wait, each with its gate open, and a closed gate behind them.
#[derive(Drop)]
pub struct Group {
    bytes: Vec<u8>,
}

impl Model for Group {
    ghost use Rattle.std.specs.Prelude.{◌≤◌, ◌+◌, List, ℕ, length, vec_capacity};
    ghost use Rattle.frame_journal.specs.declared.group.TheConstants.{MAX_GROUP};

    ghost Value = { List ℕ };

    ghost view = { λ g. g.bytes.items };

    ghost invariant = { λ g. (1 ≤ length g.bytes.items)
        × (length g.bytes.items ≤ MAX_GROUP + 1) × (MAX_GROUP + 1 ≤ vec_capacity g.bytes) };
}

impl Group {
    /// A group in which no frame waits, with the memory that the longest takes.
    pub fn new(alloc: Global) -> Result<Group, AllocError>
        ensures { IfOk result (λ g. g ≡ 0 ∷ []) }
    {
        let mut bytes = Vec::with_capacity(alloc, MAX_GROUP + 1)?;
        bytes.push(0)?;
        Ok(Group { bytes })
    }

    /// Whether no frame waits.
    pub fn is_empty(&self) -> bool
        ensures value { result ≡ (length self.now == 1) }
    {
        self.bytes.len() == 1
    }

    /// Whether a frame that takes so many bytes may be added.
    pub fn has_room(&self, len: usize) -> bool
        ensures value { result ≡ nat_le (length self.now + len) (MAX_GROUP + 1) }
    {
        self.bytes.len().saturating_add(len) <= MAX_GROUP + 1
    }

    /// Adds a frame behind those that wait, which takes no memory; `framed` is as `Journal::append`
    /// takes it.
    pub fn add(&mut self, framed: &[u8])
        requires framed { IsFramed framed.now }
        requires room { length self.old + length framed.now ≤ MAX_GROUP + 1 }
        ensures added { (waiting : List (List ℕ)) → IsJoined waiting self.old
            → IsJoined (waiting ++ payload_of framed.now ∷ []) self.new }
        ensures long { length self.new ≡ length self.old + length framed.now }
    {
        let gate = self.bytes.len() - 1;
        self.bytes.extend_from_slice(framed).unwrap();
        self.bytes[gate] = 1;
    }

    /// The frames, and the closed gate.
    pub fn as_slice(&self) -> &[u8]
        ensures value { result.now ≡ self.now }
        ensures within { 1 ≤ length result.now }
    {
        self.bytes.as_slice()
    }

    /// Forgets the frames.
    pub(crate) fn clear(&mut self)
        ensures { self.new ≡ 0 ∷ [] }
    {
        self.bytes.truncate(1);
        self.bytes[0] = 0;
    }
}
