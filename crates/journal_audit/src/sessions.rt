//! The sessions, and the records taken on each.
ghost use Rattle.std.specs.Prelude.{◌≡◌, ◌+◌, ◌∷◌, ◌++◌, [], OnOk};
ghost use Rattle.std.specs.FinMap as fin_map;
ghost use Rattle.sync_rules.specs.Facts.{session_at, takes_of};

use std::alloc::{AllocError, Global};
use std::collections::BTreeMap;
use std::marker::Model;
use sync_rules::Session;

/// The sessions. Contracts see how many began, those of them that were not dropped in the order in
/// which they began, and a map from the numbers of sessions to the numbers of the records taken.
#[derive(Drop)]
pub(crate) struct Sessions {
    begun: u32,
    sessions: Vec<Session>,
    by_number: BTreeMap<u32, Session>,
    takes: BTreeMap<u32, u64>,
}

impl Model for Sessions {
    ghost use Rattle.journal_audit.specs.Sessions.{SessionsValue, sessions_code};

    ghost Value = { SessionsValue };

    ghost coded = { sessions_code };

    ghost use Rattle.std.specs.FinMap as fin_map;
    ghost use Rattle.std.specs.Ordering.{nat_cmp};
    ghost use Rattle.journal_audit.specs.Sessions.{AreByNumber};

    ghost view = { λ s. record {
      begun = s.begun;
      listed = s.sessions.items;
      takes = fin_map.from_entries {R = nat_cmp} s.takes.entries;
    } };

    ghost invariant = { λ s. AreByNumber s.sessions.items s.by_number };
}

impl Sessions {
    /// No sessions.
    pub(crate) fn new(alloc: Global) -> Sessions
        ensures begun { result.begun ≡ 0 }
        ensures listed { result.listed ≡ [] }
        ensures takes { result.takes ≡ fin_map.empty }
    {
        Sessions {
            begun: 0,
            sessions: Vec::new(alloc),
            by_number: BTreeMap::new(alloc),
            takes: BTreeMap::new(alloc),
        }
    }

    /// A session begins. As want of memory counts that 2^32 - 1 began.
    pub(crate) fn begin(&mut self, session: Session) -> Result<(), AllocError>
        ensures { OnOk result (self.new ≡ record {
          begun = self.old.begun + 1;
          listed = self.old.listed ++ session ∷ [];
          takes = self.old.takes;
        }) }
    {
        self.begun = self.begun.checked_add(1).ok_or(AllocError)?;
        self.sessions.reserve(1)?;
        if !self.by_number.contains_key(&session.number) {
            self.by_number.insert(session.number, session)?;
        }
        self.sessions.push(session).unwrap();
        Ok(())
    }

    /// So many sessions began and are dropped. As want of memory counts that 2^32 would have begun.
    pub(crate) fn skip(&mut self, sessions: u32) -> Result<(), AllocError>
        ensures { OnOk result (self.new ≡ record self.old { begun = self.old.begun + sessions }) }
    {
        self.begun = self.begun.checked_add(sessions).ok_or(AllocError)?;
        Ok(())
    }

    /// A record is taken on the session. As want of memory counts that 2^64 - 1 were.
    pub(crate) fn take(&mut self, number: u32) -> Result<(), AllocError>
        ensures { OnOk result (self.new ≡ record self.old {
          takes = fin_map.insert self.old.takes number (takes_of self.old.takes number + 1);
        }) }
    {
        let count = self.takes(number).checked_add(1).ok_or(AllocError)?;
        self.takes.insert(number, count)?;
        Ok(())
    }

    /// The number of sessions that have begun.
    pub(crate) fn begun(&self) -> u32
        ensures { result ≡ self.now.begun }
    {
        self.begun
    }

    /// The first session of this number.
    pub(crate) fn find(&self, number: u32) -> Option<Session>
        ensures { result ≡ session_at self.now.listed number }
    {
        self.by_number.get(&number).copied()
    }

    /// How many records were taken on the session.
    pub(crate) fn takes(&self, number: u32) -> u64
        ensures { result ≡ takes_of self.now.takes number }
    {
        match self.takes.get(&number) {
            Some(count) => *count,
            None => 0,
        }
    }
}
