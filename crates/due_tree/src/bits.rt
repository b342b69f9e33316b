//! `Bits`.
ghost use Rattle.std.specs.Prelude.{◌≡◌, ◌≢◌, ◌+◌, ◌-◌, ◌<◌, ◌++◌, ℕ, [], false, IfOk, OnOk};
ghost use Rattle.std.specs.Prelude.{OnErr, cond, length, replicate, slice_set};
ghost use Rattle.std.specs.Prelude.{slice_index_or, None, Some};
ghost use Rattle.std.specs.Int.{bit_at};
ghost use Rattle.due_tree.specs.Sets.{next_set, mark};

use crate::tree::DueTree;
use std::alloc::{AllocError, Global};
use std::marker::Model;

/// The most places of one set.
const MOST: usize = 1 << 58;

/// Places from 0 on, each of which is in the set or not, a bit a place; the first that is in it is
/// found in time logarithmic in their count. Contracts see the list of the places, each true where
/// it is in the set.
#[derive(Drop)]
pub struct Bits {
    len: usize,
    words: Vec<u64>,
    filled: DueTree,
}

impl Model for Bits {
    ghost use Rattle.std.specs.Prelude.{List, Bool};
    ghost use Rattle.due_tree.specs.Sets.{places_from, AreBits};

    ghost Value = { List Bool };

    ghost view = { λ b. places_from b.words.items 0 b.len };

    ghost invariant = { λ b. AreBits b.len b.words.items b.filled };
}

/// A word with one of its bits set or not.
fn with_bit(word: u64, bit: usize, is_set: bool) -> u64
    requires { bit < 64 }
    ensures here { bit_at result bit ≡ cond is_set 1 0 }
    ensures others { (other : ℕ) → other < 64 → other ≢ bit
        → bit_at result other ≡ bit_at word other }
{
    if is_set {
        word | (1 << bit)
    } else {
        word & !(1 << bit)
    }
}

/// The lowest bit that is set.
fn lowest(word: u64) -> usize
    requires { word ≢ 0 }
    ensures within { result < 64 }
    ensures here { bit_at word result ≡ 1 }
    ensures before { (bit : ℕ) → bit < result → bit_at word bit ≡ 0 }
{
    word.trailing_zeros() as usize
}

/// Marks a word that has become another.
fn remark(filled: &mut DueTree, place: usize, old: u64, new: u64)
    requires within { place < length filled.old }
    requires marked { slice_index_or filled.old place None ≡ mark old }
    ensures { filled.new ≡ slice_set filled.old place (mark new) }
{
    if (old == 0) == (new == 0) {
        return;
    }
    if new == 0 {
        filled.clear(place);
    } else {
        filled.set(place, 0);
    }
}

impl Bits {
    /// A set with no places. Answers an error where there is no memory.
    pub fn new(alloc: Global) -> Result<Bits, AllocError>
        ensures { IfOk result (λ b. b ≡ []) }
    {
        let filled = DueTree::new(alloc)?;
        Ok(Bits {
            len: 0,
            words: Vec::new(alloc),
            filled,
        })
    }

    /// The number of places.
    pub fn len(&self) -> usize
        ensures { result ≡ length self.now }
    {
        self.len
    }

    /// Makes places at the end, which are not in the set, until there are `places` of them, and
    /// never takes one away. It alone takes memory; after an error all is as before.
    pub fn reserve(&mut self, places: usize) -> Result<(), AllocError>
        ensures ok { OnOk result (self.new ≡ self.old ++ replicate (places - length self.old)
            false) }
        ensures err { OnErr result (self.new ≡ self.old) }
    {
        if places <= self.len {
            return Ok(());
        }
        if places > MOST {
            return Err(AllocError);
        }
        let words = places / 64 + 1;
        if words <= self.words.len() {
            self.len = places;
            return Ok(());
        }
        self.filled.reserve(words)?;
        self.words.resize(words, 0)?;
        self.len = places;
        Ok(())
    }

    /// Puts a place into the set, or takes it out.
    pub fn put(&mut self, place: usize, is_set: bool)
        requires { place < length self.old }
        ensures { self.new ≡ slice_set self.old place is_set }
    {
        let old = self.words[place / 64];
        let new = with_bit(old, place % 64, is_set);
        self.words[place / 64] = new;
        remark(&mut self.filled, place / 64, old, new);
    }

    /// The first place from `from` on that is in the set; `None` exactly where there is none.
    pub fn next(&self, from: usize) -> Option<usize>
        ensures { result ≡ next_set from self.now }
    {
        if from >= self.len {
            return None;
        }
        let rest = self.words[from / 64] >> (from % 64);
        if rest != 0 {
            return Some(from + lowest(rest));
        }
        let word = self.filled.next_at_most(from / 64 + 1, 0)?;
        Some(64 * word + lowest(self.words[word]))
    }
}
