//! The sessions, and the records taken on each.
ghost use Rattle.std.specs.Prelude.{◌≡◌, ◌+◌, ◌-◌, ◌^◌, ◌<◌, ◌≤◌, ◌++◌, ◌∷◌, [], OnOk};
ghost use Rattle.std.specs.FinMap as fin_map;
ghost use Rattle.sync_rules.specs.Facts.{session_at, takes_of};

use indexmap::IndexMap;
use std::alloc::{AllocError, Global};
use std::marker::Model;
use sync_rules::Session;

/// The sessions, which are numbered from the first one's number on, and how many records were taken
/// on each. Contracts see how many began, the list of them, a map from the numbers of those on
/// which a record was taken, and for how many more sessions and records there is room.
#[derive(Drop)]
pub(crate) struct Sessions {
    first: u32,
    sessions: Vec<Session>,
    counts: IndexMap<u32, u64>,
}

impl Model for Sessions {
    ghost use Rattle.journal_state.specs.Begun.{Begun, begun_code, IsNumbered};

    ghost Value = { Begun };

    ghost coded = { begun_code };

    ghost use Rattle.std.specs.Prelude.{◌+◌, ◌-◌, ◌<◌, ◌^◌, length, min, vec_capacity};
    ghost use Rattle.std.specs.FinMap as fin_map;
    ghost use Rattle.std.specs.Ordering.{nat_cmp};
    ghost use Rattle.indexmap.specs.IndexMap.{spare};

    ghost view = { λ s. record {
      begun = s.first + length s.sessions.items;
      sessions = s.sessions.items;
      takes = fin_map.from_entries {R = nat_cmp}
          s.counts.entries;
      room = min (spare s.counts)
          (vec_capacity s.sessions - length s.sessions.items);
    } };

    ghost invariant = { λ s. IsNumbered s.first s.sessions.items
        × (s.first + length s.sessions.items < 2 ^ 32) };
}

impl Sessions {
    /// No sessions.
    pub(crate) fn new(alloc: Global) -> Sessions
        ensures begun { result.begun ≡ 0 }
        ensures sessions { result.sessions ≡ [] }
        ensures takes { result.takes ≡ fin_map.empty }
    {
        Sessions {
            first: 0,
            sessions: Vec::new(alloc),
            counts: IndexMap::new(alloc),
        }
    }

    /// Makes room for that many more sessions and records; it never takes room away.
    pub(crate) fn reserve(&mut self, entries: usize) -> Result<(), AllocError>
        ensures begun { self.new.begun ≡ self.old.begun }
        ensures sessions { self.new.sessions ≡ self.old.sessions }
        ensures takes { self.new.takes ≡ self.old.takes }
        ensures room { self.old.room ≤ self.new.room }
        ensures ok { OnOk result (entries ≤ self.new.room) }
    {
        self.sessions.reserve(entries)?;
        self.counts.reserve(entries)
    }

    /// Begins a session, which has the next number.
    pub(crate) fn begin(&mut self, session: &Session)
        requires numbered { session.now.number ≡ self.old.begun }
        requires room { 0 < self.old.room }
        requires few { self.old.begun < 2 ^ 32 - 1 }
        ensures begun { self.new.begun ≡ self.old.begun + 1 }
        ensures sessions { self.new.sessions ≡ self.old.sessions ++ session.now ∷ [] }
        ensures takes { self.new.takes ≡ self.old.takes }
        ensures left { self.old.room ≤ self.new.room + 1 }
    {
        let nonce = session.nonce;
        self.sessions.push(Session { nonce, ..*session }).unwrap();
    }

    /// So many sessions have begun that are not listed, where none has begun before.
    pub(crate) fn skip(&mut self, sessions: u32)
        requires { self.old.begun ≡ 0 }
        ensures begun { self.new.begun ≡ self.old.begun + sessions }
        ensures sessions { self.new.sessions ≡ self.old.sessions }
        ensures takes { self.new.takes ≡ self.old.takes }
        ensures room { self.new.room ≡ self.old.room }
    {
        self.first = sessions;
    }

    /// Forgets all sessions but how many have begun, and the records taken on them. It takes no
    /// memory.
    pub(crate) fn forget(&mut self)
        ensures begun { self.new.begun ≡ self.old.begun }
        ensures sessions { self.new.sessions ≡ [] }
        ensures takes { self.new.takes ≡ fin_map.empty }
        ensures room { self.old.room ≤ self.new.room }
    {
        self.first = self.begun();
        self.sessions.clear();
        self.counts.clear();
    }

    /// Counts a record taken on a session.
    pub(crate) fn take(&mut self, number: u32)
        requires room { 0 < self.old.room }
        requires few { takes_of self.old.takes number < 2 ^ 64 - 1 }
        ensures begun { self.new.begun ≡ self.old.begun }
        ensures sessions { self.new.sessions ≡ self.old.sessions }
        ensures takes { self.new.takes ≡ fin_map.insert self.old.takes number
            (takes_of self.old.takes number + 1) }
        ensures left { self.old.room ≤ self.new.room + 1 }
    {
        let count = self.takes(number);
        self.counts.insert(number, count + 1).unwrap();
    }

    /// The number of sessions that have begun.
    pub(crate) fn begun(&self) -> u32
        ensures { result ≡ self.now.begun }
    {
        self.first + self.sessions.len() as u32
    }

    /// The session of this number. `None` comes exactly where there is none.
    pub(crate) fn find(&self, number: u32) -> Option<Session>
        ensures { result ≡ session_at self.now.sessions number }
    {
        if number < self.first {
            return None;
        }
        let place = (number - self.first) as usize;
        if place < self.sessions.len() {
            Some(self.sessions[place])
        } else {
            None
        }
    }

    /// How many records were taken on the session.
    pub(crate) fn takes(&self, number: u32) -> u64
        ensures { result ≡ takes_of self.now.takes number }
    {
        match self.counts.get(&number) {
            Some(count) => *count,
            None => 0,
        }
    }
}
