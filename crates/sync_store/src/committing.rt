//! A batch committed.
ghost use Rattle.std.specs.Prelude.{◌≡◌, ◌+◌, ◌^◌, ◌<◌, ◌≤◌, false, true, List, Some, length};
ghost use Rattle.std.specs.Prelude.{nat_lt, IfErr, IfOk, IsErrOf, OnOk};
ghost use Rattle.std.specs.List.{AllByRecursion};
ghost use Rattle.entry_codec.specs.Payloads.{payload, payload_len};
ghost use Rattle.entry_codec.specs.Spelling.{IsEntry};
ghost use Rattle.frame_journal.specs.Append.{framed_of};
ghost use Rattle.outside.specs.declared.limits.TheConstants.{MAX_JOURNAL};
ghost use Rattle.outside.specs.Faults.{HasCause, CountRose};
ghost use Rattle.outside.specs.Files.{Two, File};
ghost use Rattle.outside.specs.Outside.{DiskRun, MakesCalls};
ghost use Rattle.journal_state.specs.Taking.{HasRoom};
ghost use Rattle.journal_state.specs.Whole.{KnowsJudgements};
ghost use Rattle.sync_rules.specs.declared.entries.Entry.{Entry};
ghost use Rattle.sync_rules.specs.Allows.{allows, is_account_kind, is_settling_kind};
ghost use Rattle.sync_rules.specs.Clients.{Meaning};
ghost use Rattle.sync_rules.specs.Legal.{Allowed};
ghost use Rattle.session_core.specs.Known.{IsOfAll};
ghost use Rattle.sync_store.specs.Appending.{AppendsFor};
ghost use Rattle.sync_store.specs.Commits.{AnswersCommit, GainsBatch, MayAdd, UnaskedDisk, needed};
ghost use Rattle.sync_store.specs.Fitting.{FitsFiles};
ghost use Rattle.sync_store.specs.Moments.{RunsCommit};
ghost use Rattle.sync_store.specs.Ready.{IsReady};
ghost use Rattle.sync_store.specs.Store.{IsStore, written_in};

use crate::StoreFault;
use crate::formats::{HeldNames, format_meant};
use crate::frames::frame_batch;
use crate::laws::cite_laws;
use crate::store::Store;
use entry_codec::{batch_len, step_bytes};
use outside::Disk;
use std::alloc::AllocError;
use sync_ids::MessageId;
use sync_rules::{Batch, Clients};

impl Store {
    /// Commits a batch, which may follow the journal, and is neither a settling batch nor one of the
    /// kinds that only a brief account has. Before its first call on the disk it takes all the
    /// memory that it needs. `Closed` comes exactly where an
    /// earlier call answered `DiskFault`; then `Full` exactly where the journal, the frame and the
    /// room that settling may then need pass the limit. After `Closed`, `Full` and `Memory` all is
    /// as before, and no call on the disk was made; after `DiskFault` the store is closed, and else
    /// as before. At each moment the files stand for the journal or for it with the batch, and
    /// after `Ok` every crash leaves the latter. `Ok` makes four calls of the disk, `DiskFault` at
    /// most four.
    pub fn commit<D: Disk, C: Clients>(
        &mut self,
        disk: &mut D,
        clients: &C,
        batch: Batch,
    ) -> Result<(), StoreFault>
        requires ready { self.old.closed ≡ false
            → IsReady (C.meaning clients.now) self.old (D.tells disk.old).files }
        requires allowed { self.old.closed ≡ false
            → Allowed (C.meaning clients.now) self.old.state.facts batch }
        requires kind { is_settling_kind batch ≡ false }
        requires plain { is_account_kind batch ≡ false }
        ensures answer { AnswersCommit self.old self.new batch result }
        ensures extends { self.old.closed ≡ false → (two : Two File)
            → (D.tells disk.old).files ≡ Some two → (j : List (List Entry))
            → FitsFiles (C.meaning clients.now) self.old j two
            → RunsCommit (C.meaning clients.now) batch result self.new (D.tells disk.old)
            (D.tells disk.new) j }
        ensures ready { self.new.closed ≡ false
            → IsReady (C.meaning clients.now) self.new (D.tells disk.new).files }
        ensures unasked { UnaskedDisk result disk.old disk.new }
        ensures calls { MakesCalls 4 result (D.tells disk.old) (D.tells disk.new) }
        ensures appends { AppendsFor self.old self.new (D.tells disk.old) (D.tells disk.new) }
        ensures run { DiskRun (D.tells disk.old) (D.tells disk.new) }
        ensures numbers { IsStore self.new }
        ensures fault { IsErrOf result StoreFault.DiskFault
            → CountRose (D.tells disk.old).disk_faults (D.tells disk.new).disk_faults }
    {
        self.commit_known(disk, clients, batch, None)
    }

    /// The same of a batch with the id of the one message that it brings, where the caller has it:
    /// it is not computed anew.
    pub fn commit_known<D: Disk, C: Clients>(
        &mut self,
        disk: &mut D,
        clients: &C,
        batch: Batch,
        id: Option<MessageId>,
    ) -> Result<(), StoreFault>
        requires ready { self.old.closed ≡ false
            → IsReady (C.meaning clients.now) self.old (D.tells disk.old).files }
        requires allowed { self.old.closed ≡ false
            → Allowed (C.meaning clients.now) self.old.state.facts batch }
        requires kind { is_settling_kind batch ≡ false }
        requires plain { is_account_kind batch ≡ false }
        requires named { IsOfAll id batch }
        ensures answer { AnswersCommit self.old self.new batch result }
        ensures extends { self.old.closed ≡ false → (two : Two File)
            → (D.tells disk.old).files ≡ Some two → (j : List (List Entry))
            → FitsFiles (C.meaning clients.now) self.old j two
            → RunsCommit (C.meaning clients.now) batch result self.new (D.tells disk.old)
            (D.tells disk.new) j }
        ensures ready { self.new.closed ≡ false
            → IsReady (C.meaning clients.now) self.new (D.tells disk.new).files }
        ensures unasked { UnaskedDisk result disk.old disk.new }
        ensures calls { MakesCalls 4 result (D.tells disk.old) (D.tells disk.new) }
        ensures appends { AppendsFor self.old self.new (D.tells disk.old) (D.tells disk.new) }
        ensures run { DiskRun (D.tells disk.old) (D.tells disk.new) }
        ensures numbers { IsStore self.new }
        ensures fault { IsErrOf result StoreFault.DiskFault
            → CountRose (D.tells disk.old).disk_faults (D.tells disk.new).disk_faults }
    {
        if self.closed {
            return Err(StoreFault::Closed);
        }
        cite_laws();
        if self.is_full(clients, &batch) {
            return Err(StoreFault::Full);
        }
        let framed = self.frame(&batch)?;
        self.state.reserve(&batch)?;
        self.append(disk, clients, framed.as_slice(), batch, id)
    }

    // Whether the journal with the batch and the room for settling passes the limit.
    pub(crate) fn is_full<C: Clients>(&self, clients: &C, batch: &Batch) -> bool
        requires knows { KnowsJudgements (C.meaning clients.now) self.now.state }
        requires allowed { Allowed (C.meaning clients.now) self.now.state.facts batch.now }
        requires kind { is_settling_kind batch.now ≡ false }
        requires plain { is_account_kind batch.now ≡ false }
        ensures { result ≡ nat_lt self.now.limit (needed self.now batch.now) }
    {
        let _meaning = clients;
        let format = format_meant(self.journal.format());
        let room = self
            .state
            .left_with(batch)
            .saturating_mul(step_bytes(format));
        let len = batch_len(format, batch) as u64;
        let all = room.saturating_add(len).saturating_add(self.end() + 5);
        self.limit < all
    }

    // The batch in its frame.
    pub(crate) fn frame(&self, batch: &Batch) -> Result<Vec<u8>, AllocError>
        requires allowed { (clients : Meaning) × Allowed clients self.now.state.facts batch.now }
        requires few { payload_len (written_in self.now) batch.now ≤ MAX_JOURNAL }
        ensures framed { IfOk result (λ v. v.items ≡ framed_of
            (payload (written_in self.now) self.now.state.facts batch.now)) }
        ensures within { IfOk result (λ v. AllByRecursion IsEntry batch.now) }
    {
        cite_laws();
        let format = format_meant(self.journal.format());
        let names = HeldNames { state: &self.state };
        frame_batch(self.alloc, format, &names, batch)
    }

    // Adds the batch in its frame to the journal, with no memory.
    fn append<D: Disk, C: Clients>(
        &mut self,
        disk: &mut D,
        clients: &C,
        framed: &[u8],
        batch: Batch,
        id: Option<MessageId>,
    ) -> Result<(), StoreFault>
        requires ready { IsReady (C.meaning clients.now) self.old (D.tells disk.old).files }
        requires may { MayAdd (C.meaning clients.now) self.old batch framed.now }
        requires kind { is_settling_kind batch ≡ false }
        requires plain { is_account_kind batch ≡ false }
        requires named { IsOfAll id batch }
        requires room { HasRoom self.old.state batch }
        ensures ok { OnOk result (GainsBatch self.old self.new batch) }
        ensures err { IfErr result (λ e. (e ≡ StoreFault.DiskFault)
            × (self.new ≡ record self.old { closed = true })) }
        ensures extends { (two : Two File) → (D.tells disk.old).files ≡ Some two
            → (j : List (List Entry)) → FitsFiles (C.meaning clients.now) self.old j two
            → RunsCommit (C.meaning clients.now) batch result self.new (D.tells disk.old)
            (D.tells disk.new) j }
        ensures ready { self.new.closed ≡ false
            → IsReady (C.meaning clients.now) self.new (D.tells disk.new).files }
        ensures calls { MakesCalls 4 result (D.tells disk.old) (D.tells disk.new) }
        ensures appends { AppendsFor self.old self.new (D.tells disk.old) (D.tells disk.new) }
        ensures run { DiskRun (D.tells disk.old) (D.tells disk.new) }
        ensures numbers { IsStore self.new }
        ensures fault { HasCause (D.tells disk.old).disk_faults (D.tells disk.new).disk_faults
            result }
    {
        let _meaning = clients;
        cite_laws();
        match self.journal.append(disk, framed) {
            Ok(()) => {
                self.state.take_known(batch, id);
                Ok(())
            }
            Err(_) => {
                self.closed = true;
                Err(StoreFault::DiskFault)
            }
        }
    }
}
