//! Records in flight.
ghost use Rattle.std.specs.Prelude.{◌≡◌, ◌<◌, ◌≤◌, [], ◌∷◌, ◌++◌, length, slice_get};
ghost use Rattle.std.specs.Prelude.{IfSome, MatchOption, OnErr, OnOk};
ghost use Rattle.std.specs.Option.{option_copied};
ghost use Rattle.world_links.specs.Flights.{first_len, whole_records};
ghost use Rattle.world_links.specs.Moves.{dropped_first, swapped_first, has_first, has_two};

use record_grammar::{Front, HEADER_LEN, front_of};
use std::alloc::{AllocError, Global};
use std::collections::VecDeque;
use std::marker::Model;

// The bytes of one record.
#[derive(Debug, Drop)]
struct Spelled {
    bytes: Vec<u8>,
}

impl Model for Spelled {
    ghost use Rattle.std.specs.Prelude.{List, ℕ};

    ghost Value = { List ℕ };

    ghost view = { λ s. s.bytes.items };
}

/// The records in flight from an end of a link, each by its bytes, in the order in which they were
/// sent. Contracts see the list of these.
#[derive(Debug, Drop)]
pub struct Flight {
    records: VecDeque<Spelled>,
}

impl Model for Flight {
    ghost use Rattle.std.specs.Prelude.{List, ℕ};

    ghost Value = { List (List ℕ) };

    ghost view = { λ f. f.records.items };
}

impl Flight {
    /// Nothing is in flight.
    pub fn new(alloc: Global) -> Flight
        ensures { result ≡ [] }
    {
        Flight {
            records: VecDeque::new(alloc),
        }
    }

    /// The records that stand whole at the front of these bytes are sent, one behind the other. It
    /// fails only for want of memory.
    pub fn send(&mut self, alloc: Global, bytes: &[u8]) -> Result<(), AllocError>
        ensures { OnOk result (self.new ≡ self.old ++ whole_records bytes.now) }
    {
        let mut rest = bytes;
        'records: while let Some((record, behind)) = first_record(rest) {
            self.push(alloc, record)?;
            rest = behind;
        }
        Ok(())
    }

    // One more record is sent.
    fn push(&mut self, alloc: Global, bytes: &[u8]) -> Result<(), AllocError>
        ensures { OnOk result (self.new ≡ self.old ++ bytes.now ∷ []) }
    {
        let kept = Vec::from_slice(alloc, bytes)?;
        self.records.push_back(Spelled { bytes: kept })?;
        Ok(())
    }

    /// The first of them.
    pub fn first(&self) -> Option<&[u8]>
        ensures { option_copied result ≡ slice_get self.now 0 }
    {
        match self.records.front() {
            Some(record) => Some(record.bytes.as_slice()),
            None => None,
        }
    }

    /// Whether there is one.
    pub fn has_first(&self) -> bool
        ensures { result ≡ has_first self.now }
    {
        !self.records.is_empty()
    }

    /// The first is dropped, if there is one.
    pub fn drop_first(&mut self)
        ensures { self.new ≡ dropped_first self.old }
    {
        let _first = self.records.pop_front();
    }

    /// The first two change places. Answers whether there were two.
    pub fn swap_first(&mut self) -> bool
        ensures swapped { self.new ≡ swapped_first self.old }
        ensures possible { result ≡ has_two self.old }
    {
        if self.records.len() < 2 {
            return false;
        }
        self.records.swap(0, 1);
        true
    }

    /// Nothing is in flight any more.
    pub fn clear(&mut self)
        ensures { self.new ≡ [] }
    {
        self.records.clear();
    }
}

// The length of the record that stands whole at the front.
#[tactic(auto, unfolding(crate::specs::Flights::first_len))]
fn record_len(bytes: &[u8]) -> Option<usize>
    ensures value { result ≡ first_len bytes.now }
    ensures within { IfSome result (λ len. (1 ≤ len) × (len ≤ length bytes.now)) }
{
    match front_of(bytes) {
        Front::Whole(_, len) => Some(HEADER_LEN + len),
        Front::More | Front::Bad(_) => None,
    }
}

// The record that stands whole at the front, and what follows it.
fn first_record(bytes: &[u8]) -> Option<(&[u8], &[u8])>
    ensures cut { MatchOption result (whole_records bytes.now ≡ [])
        (λ cut. whole_records bytes.now ≡ cut.0.now ∷ whole_records cut.1.now) }
    ensures shorter { IfSome result (λ cut. length cut.1.now < length bytes.now) }
{
    match record_len(bytes) {
        Some(len) => Some(bytes.split_at(len)),
        None => None,
    }
}
