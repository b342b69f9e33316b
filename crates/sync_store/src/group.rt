//! Batches whose frames wait in the store, to be added to the journal together.
ghost use Rattle.std.specs.Prelude.{◌≡◌, ◌++◌, ◌∷◌, [], false, true};
ghost use Rattle.std.specs.Prelude.{List, IfErr, IsErrOf, OnOk};
ghost use Rattle.frame_journal.specs.Group.{flush_calls, group_len};
ghost use Rattle.outside.specs.Faults.{CountRose, HasCause};
ghost use Rattle.outside.specs.Outside.{DiskRun, MakesCalls};
ghost use Rattle.journal_state.specs.Taking.{HasRoom};
ghost use Rattle.journal_state.specs.Whole.{KnowsJudgements};
ghost use Rattle.sync_rules.specs.declared.entries.Entry.{Entry};
ghost use Rattle.sync_rules.specs.Allows.{is_account_kind, is_settling_kind};
ghost use Rattle.sync_rules.specs.Legal.{Allowed};
ghost use Rattle.session_core.specs.Known.{IsOfAll};
ghost use Rattle.sync_store.specs.Appending.{AppendsFor};
ghost use Rattle.sync_store.specs.Commits.{AnswersCommit, GainsBatch, MayAdd};
ghost use Rattle.sync_store.specs.Gathering.{JoinsBehind};
ghost use Rattle.sync_store.specs.Groups.{AddsAll, HasGathered, HasGroupRoom, IsGathering};
ghost use Rattle.sync_store.specs.Ready.{IsReady};
ghost use Rattle.sync_store.specs.Store.{IsStore, StoreValue};
ghost use Rattle.sync_store.specs.Waiting.{frames_in, has_place};

use crate::StoreFault;
use crate::laws::{cite_laws, images_stand};
use crate::store::Store;
use outside::Disk;
use sync_ids::MessageId;
use sync_rules::{Batch, Clients};

impl Store {
    // Whether one batch more may wait, whatever its length.
    pub(crate) fn has_group_room(&self) -> bool
        ensures { result ≡ has_place (group_len self.now.waiting) (frames_in self.now.waiting) }
    {
        self.waiting.has_place()
    }

    /// Takes a batch into the store as `commit_known` does, but its frame waits behind those of
    /// other batches that wait, until `flush` adds them all. Where the longest frame might find no
    /// room behind them they are added first, which is all that is asked of the disk. `Full` comes
    /// exactly where the journal with all that waits, the frame and the room that settling may then
    /// need pass the limit. After it and after `Memory` all is as before, but that those that waited
    /// may have been added; after `DiskFault` the store is closed.
    pub fn gather_known<D: Disk, C: Clients>(
        &mut self,
        disk: &mut D,
        clients: &C,
        batch: Batch,
        id: Option<MessageId>,
    ) -> Result<(), StoreFault>
        requires gathering { IsGathering (C.meaning clients.now) self.old (D.tells disk.old).files }
        requires allowed { Allowed (C.meaning clients.now) self.old.state.facts batch }
        requires kind { is_settling_kind batch ≡ false }
        requires plain { is_account_kind batch ≡ false }
        requires named { IsOfAll id batch }
        ensures joins { JoinsBehind (C.meaning clients.now) self.old self.new batch result
            (D.tells disk.old) (D.tells disk.new) }
        ensures gathering { self.new.closed ≡ false
            → IsGathering (C.meaning clients.now) self.new (D.tells disk.new).files }
        ensures run { DiskRun (D.tells disk.old) (D.tells disk.new) }
        ensures numbers { IsStore self.new }
        ensures fault { IsErrOf result StoreFault.DiskFault
            → CountRose (D.tells disk.old).disk_faults (D.tells disk.new).disk_faults }
    {
        images_stand();
        self.make_room(disk, clients)?;
        self.gather(clients, batch, id)
    }

    // Takes a batch into the store as `commit_known` does, with no call on the disk: its frame waits
    // until `flush`. After `Closed`, `Full` and `Memory` all is as before.
    pub(crate) fn gather<C: Clients>(
        &mut self,
        clients: &C,
        batch: Batch,
        id: Option<MessageId>,
    ) -> Result<(), StoreFault>
        requires knows { self.old.closed ≡ false
            → KnowsJudgements (C.meaning clients.now) self.old.state }
        requires room { self.old.closed ≡ false → HasGroupRoom self.old }
        requires allowed { self.old.closed ≡ false
            → Allowed (C.meaning clients.now) self.old.state.facts batch }
        requires kind { is_settling_kind batch ≡ false }
        requires plain { is_account_kind batch ≡ false }
        requires named { IsOfAll id batch }
        ensures answer { AnswersCommit self.old self.new batch result }
        ensures faultless { IsErrOf result StoreFault.DiskFault → ⊥ }
        ensures gathers { OnOk result ((before : StoreValue) → (more : List (List Entry))
            → HasGathered (C.meaning clients.now) before self.old more
            → HasGathered (C.meaning clients.now) before self.new (more ++ batch ∷ [])) }
        ensures knows { self.new.closed ≡ false
            → KnowsJudgements (C.meaning clients.now) self.new.state }
        ensures numbers { IsStore self.new }
    {
        if self.closed {
            return Err(StoreFault::Closed);
        }
        cite_laws();
        if self.is_full(clients, &batch) {
            return Err(StoreFault::Full);
        }
        let framed = self.frame(&batch)?;
        self.state.reserve(&batch)?;
        self.add(clients, framed.as_slice(), batch, id);
        Ok(())
    }

    // Adds the batch in its frame to those that wait, with no memory.
    fn add<C: Clients>(&mut self, clients: &C, framed: &[u8], batch: Batch, id: Option<MessageId>)
        requires still_open { self.old.closed ≡ false }
        requires may { MayAdd (C.meaning clients.now) self.old batch framed.now }
        requires kind { is_settling_kind batch ≡ false }
        requires plain { is_account_kind batch ≡ false }
        requires named { IsOfAll id batch }
        requires room { HasRoom self.old.state batch }
        requires waits { HasGroupRoom self.old }
        ensures gains { GainsBatch self.old self.new batch }
        ensures gathers { (before : StoreValue) → (more : List (List Entry))
            → HasGathered (C.meaning clients.now) before self.old more
            → HasGathered (C.meaning clients.now) before self.new (more ++ batch ∷ []) }
        ensures knows { KnowsJudgements (C.meaning clients.now) self.old.state
            → KnowsJudgements (C.meaning clients.now) self.new.state }
        ensures numbers { IsStore self.new }
    {
        let _meaning = clients;
        cite_laws();
        self.waiting.add(framed);
        self.state.take_known(batch, id);
    }

    /// Adds the batches whose frames wait to the journal, in four calls of the disk whatever their
    /// number, or in none where none waits. At each moment the files stand for the journal before
    /// them or for it with all of them; after `Ok` every crash leaves the latter, and none waits.
    /// After `DiskFault` the store is closed.
    pub fn flush<D: Disk, C: Clients>(
        &mut self,
        disk: &mut D,
        clients: &C,
    ) -> Result<(), StoreFault>
        requires gathering { IsGathering (C.meaning clients.now) self.old (D.tells disk.old).files }
        ensures ok { OnOk result (self.new ≡ record self.old { waiting = 0 ∷ [] }) }
        ensures err { IfErr result (λ e. (e ≡ StoreFault.DiskFault)
            × (self.new ≡ record self.old { closed = true })) }
        ensures adds { (before : StoreValue) → IsStore before → (more : List (List Entry))
            → HasGathered (C.meaning clients.now) before self.old more
            → AddsAll (C.meaning clients.now) before self.new (D.tells disk.old)
            (D.tells disk.new) more }
        ensures appends { (before : StoreValue) → (more : List (List Entry))
            → HasGathered (C.meaning clients.now) before self.old more
            → AppendsFor before self.new (D.tells disk.old) (D.tells disk.new) }
        ensures ready { self.new.closed ≡ false
            → IsReady (C.meaning clients.now) self.new (D.tells disk.new).files }
        ensures calls { MakesCalls (flush_calls self.old.waiting) result (D.tells disk.old)
            (D.tells disk.new) }
        ensures run { DiskRun (D.tells disk.old) (D.tells disk.new) }
        ensures numbers { IsStore self.new }
        ensures fault { HasCause (D.tells disk.old).disk_faults (D.tells disk.new).disk_faults
            result }
    {
        let _meaning = clients;
        cite_laws();
        match self.waiting.flush(disk, &mut self.journal) {
            Ok(()) => Ok(()),
            Err(_) => {
                self.closed = true;
                Err(StoreFault::DiskFault)
            }
        }
    }
}
