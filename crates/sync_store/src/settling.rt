//! The steps of a journal, committed until it is settled.
ghost use Rattle.std.specs.Prelude.{◌≡◌, ◌⊎◌, ◌≤◌, [], false, true, Err, List};
ghost use Rattle.std.specs.Prelude.{vec_capacity, vec_len, IsErrOf, OnOk};
ghost use Rattle.outside.specs.Faults.{HasCause, CountRose};
ghost use Rattle.outside.specs.Outside.{DiskRun};
ghost use Rattle.journal_state.specs.Whole.{KnowsJudgements};
ghost use Rattle.sync_rules.specs.declared.entries.Entry.{Entry};
ghost use Rattle.sync_rules.specs.Facts.{after_all};
ghost use Rattle.sync_rules.specs.Legal.{IsSettling};
ghost use Rattle.sync_rules.specs.Steps.{IsSettled};
ghost use Rattle.sync_store.specs.Gathering.{GathersSteps, KeepsJournal, MakesRoom};
ghost use Rattle.sync_store.specs.Gathering.{SettlesBehind, SettlesOut};
ghost use Rattle.sync_store.specs.Groups.{HasGathered, HasGroupRoom, IsGathering};
ghost use Rattle.sync_store.specs.Ready.{IsReady};
ghost use Rattle.sync_store.specs.Store.{IsStore, StoreValue};
ghost use Rattle.sync_store.specs.Settling.{HasSettled};

use crate::StoreFault;
use crate::formats::{HeldNames, format_meant};
use crate::frames::{MOST_FRAMED, frame_steps};
use crate::laws::{cite_laws, images_stand};
use crate::store::Store;
use journal_state::State;
use outside::Disk;
use std::alloc::{AllocError, Global};
use sync_rules::{Clients, Entry, MAX_STEPS};

impl Store {
    /// Commits settling batches, each filled to `MAX_STEPS` entries while a step is left, until the
    /// journal is settled: at most two entries for each held message. It never answers `Full`: each
    /// commit leaves room for settling. `Closed` comes exactly where an earlier call answered
    /// `DiskFault`; then all is as before, and no call on the disk is made. After `Memory` the
    /// journal is extended by the steps made before it, and after `DiskFault` the store is closed.
    /// At each moment the files stand for the journal with a front of these batches. They are added in
    /// groups, each of at most `MAX_GROUP` bytes and in four calls of the disk.
    pub fn settle<D: Disk, C: Clients>(
        &mut self,
        disk: &mut D,
        clients: &C,
    ) -> Result<(), StoreFault>
        requires ready { self.old.closed ≡ false
            → IsReady (C.meaning clients.now) self.old (D.tells disk.old).files }
        ensures settled { self.old.closed ≡ false
            → HasSettled (C.meaning clients.now) self.old self.new result (D.tells disk.old)
            (D.tells disk.new) }
        ensures closed { self.old.closed ≡ true → (result ≡ Err StoreFault.Closed)
            × (self.new ≡ self.old) × (disk.new ≡ disk.old) }
        ensures ready { self.new.closed ≡ false
            → IsReady (C.meaning clients.now) self.new (D.tells disk.new).files }
        ensures run { DiskRun (D.tells disk.old) (D.tells disk.new) }
        ensures numbers { IsStore self.new }
        ensures fault { IsErrOf result StoreFault.DiskFault
            → CountRose (D.tells disk.old).disk_faults (D.tells disk.new).disk_faults }
    {
        if self.is_closed() {
            return Err(StoreFault::Closed);
        }
        images_stand();
        self.settle_gathered(disk, clients)
    }

    // Settles the journal behind the batches that wait, and adds all of them to it in groups: as few
    // as there are, where the longest frame is to find room in each.
    pub(crate) fn settle_gathered<D: Disk, C: Clients>(
        &mut self,
        disk: &mut D,
        clients: &C,
    ) -> Result<(), StoreFault>
        requires gathering { IsGathering (C.meaning clients.now) self.old (D.tells disk.old).files }
        ensures settles { (before : StoreValue) → IsStore before → (waits : List (List Entry))
            → HasGathered (C.meaning clients.now) before self.old waits
            → SettlesOut (C.meaning clients.now) before self.old self.new waits result
            (D.tells disk.old) (D.tells disk.new) }
        ensures ready { self.new.closed ≡ false
            → IsReady (C.meaning clients.now) self.new (D.tells disk.new).files }
        ensures run { DiskRun (D.tells disk.old) (D.tells disk.new) }
        ensures numbers { IsStore self.new }
        ensures fault { IsErrOf result StoreFault.DiskFault
            → CountRose (D.tells disk.old).disk_faults (D.tells disk.new).disk_faults }
    {
        let settled = self.gather_settling(disk, clients);
        if self.closed {
            return settled;
        }
        self.flush(disk, clients)?;
        settled
    }

    /// Gathers settling batches behind those that wait, until no step is left: each filled while one
    /// is. Where the longest frame might find no room behind those that wait they are added first,
    /// which is all that is asked of the disk. It never answers `Full` or `Closed`. After `Memory`
    /// the steps made before it wait, and after `DiskFault` the store is closed.
    pub fn gather_settling<D: Disk, C: Clients>(
        &mut self,
        disk: &mut D,
        clients: &C,
    ) -> Result<(), StoreFault>
        requires gathering { IsGathering (C.meaning clients.now) self.old (D.tells disk.old).files }
        ensures settles { SettlesBehind (C.meaning clients.now) self.old self.new result
            (D.tells disk.old) (D.tells disk.new) }
        ensures gathering { self.new.closed ≡ false
            → IsGathering (C.meaning clients.now) self.new (D.tells disk.new).files }
        ensures run { DiskRun (D.tells disk.old) (D.tells disk.new) }
        ensures numbers { IsStore self.new }
        ensures fault { IsErrOf result StoreFault.DiskFault
            → CountRose (D.tells disk.old).disk_faults (D.tells disk.new).disk_faults }
    {
        images_stand();
        'batches: while !self.state().is_settled() {
            self.make_room(disk, clients)?;
            self.gather_steps(clients)?;
        }
        Ok(())
    }

    // Flushes the frames that wait where the longest would find no room behind them.
    pub(crate) fn make_room<D: Disk, C: Clients>(
        &mut self,
        disk: &mut D,
        clients: &C,
    ) -> Result<(), StoreFault>
        requires gathering { IsGathering (C.meaning clients.now) self.old (D.tells disk.old).files }
        ensures makes { (before : StoreValue) → IsStore before → (waits : List (List Entry))
            → HasGathered (C.meaning clients.now) before self.old waits
            → MakesRoom (C.meaning clients.now) before self.new waits result (D.tells disk.old)
            (D.tells disk.new) }
        ensures same { KeepsJournal self.old self.new }
        ensures room { OnOk result (HasGroupRoom self.new) }
        ensures gathering { OnOk result
            (IsGathering (C.meaning clients.now) self.new (D.tells disk.new).files) }
        ensures run { DiskRun (D.tells disk.old) (D.tells disk.new) }
        ensures numbers { IsStore self.new }
        ensures fault { HasCause (D.tells disk.old).disk_faults (D.tells disk.new).disk_faults
            result }
    {
        images_stand();
        if self.has_group_room() {
            return Ok(());
        }
        self.flush(disk, clients)
    }

    // Gathers one settling batch where a step is left.
    fn gather_steps<C: Clients>(&mut self, clients: &C) -> Result<(), StoreFault>
        requires still_open { self.old.closed ≡ false }
        requires knows { KnowsJudgements (C.meaning clients.now) self.old.state }
        requires unsettled { IsSettled (C.meaning clients.now) self.old.state.facts → ⊥ }
        requires room { HasGroupRoom self.old }
        ensures made { GathersSteps (C.meaning clients.now) self.old self.new result }
        ensures knows { KnowsJudgements (C.meaning clients.now) self.new.state }
        ensures numbers { IsStore self.new }
    {
        let entries = Vec::with_capacity(self.alloc, MAX_STEPS)?;
        let framed = Vec::with_capacity(self.alloc, MOST_FRAMED)?;
        self.gather_into(clients, entries, framed)
    }

    // The same, with room for the entries and for their frame. The steps are made once nothing can
    // want memory for their frame.
    fn gather_into<C: Clients>(
        &mut self,
        clients: &C,
        mut entries: Vec<Entry>,
        mut framed: Vec<u8>,
    ) -> Result<(), StoreFault>
        requires still_open { self.old.closed ≡ false }
        requires knows { KnowsJudgements (C.meaning clients.now) self.old.state }
        requires unsettled { IsSettled (C.meaning clients.now) self.old.state.facts → ⊥ }
        requires room { HasGroupRoom self.old }
        requires no_entries { entries.items ≡ [] }
        requires entries_room { MAX_STEPS ≤ vec_capacity entries }
        requires no_frame { framed.items ≡ [] }
        requires frame_room { MOST_FRAMED ≤ vec_capacity framed }
        ensures made { GathersSteps (C.meaning clients.now) self.old self.new result }
        ensures knows { KnowsJudgements (C.meaning clients.now) self.new.state }
        ensures numbers { IsStore self.new }
    {
        cite_laws();
        let filled = fill(&mut self.state, self.alloc, clients, &mut entries);
        if entries.is_empty() {
            filled?;
            return Ok(());
        }
        let format = format_meant(self.journal.format());
        let names = HeldNames { state: &self.state };
        frame_steps(format, &names, entries.as_slice(), &mut framed);
        self.waiting.add(framed.as_slice());
        filled?;
        Ok(())
    }
}

// Makes the next steps of a state, at most as many as a batch has; those that were made before an
// error stay.
fn fill<C: Clients>(
    state: &mut State,
    alloc: Global,
    clients: &C,
    entries: &mut Vec<Entry>,
) -> Result<(), AllocError>
    requires knows { KnowsJudgements (C.meaning clients.now) state.old }
    requires empty { entries.old.items ≡ [] }
    requires room { MAX_STEPS ≤ vec_capacity entries.old }
    ensures steps { IsSettling (C.meaning clients.now) state.old.facts entries.new.items }
    ensures few { vec_len entries.new ≤ MAX_STEPS }
    ensures facts { state.new.facts ≡ after_all state.old.facts entries.new.items }
    ensures knows { KnowsJudgements (C.meaning clients.now) state.new }
    ensures none { OnOk result (entries.new.items ≡ []
        → IsSettled (C.meaning clients.now) state.old.facts) }
    ensures full { OnOk result ((vec_len entries.new ≡ MAX_STEPS)
        ⊎ IsSettled (C.meaning clients.now) state.new.facts) }
{
    'steps: for _made in 0..MAX_STEPS {
        let Some(entry) = state.step(alloc, clients)? else {
            return Ok(());
        };
        entries.push(entry).unwrap();
    }
    Ok(())
}
