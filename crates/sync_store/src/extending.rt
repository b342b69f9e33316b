//! A batch committed, and the journal settled behind it.
ghost use Rattle.std.specs.Prelude.{◌≡◌, Err, IsErrOf, false, true};
ghost use Rattle.outside.specs.Faults.{CountRose};
ghost use Rattle.outside.specs.Outside.{DiskRun};
ghost use Rattle.sync_rules.specs.Allows.{is_account_kind, is_settling_kind};
ghost use Rattle.sync_rules.specs.Legal.{Allowed};
ghost use Rattle.session_core.specs.Known.{IsOfAll};
ghost use Rattle.sync_store.specs.Commits.{KeepsStore};
ghost use Rattle.sync_store.specs.Ready.{IsReady};
ghost use Rattle.sync_store.specs.Runs.{HasExtended};
ghost use Rattle.sync_store.specs.Store.{IsStore};

use crate::StoreFault;
use crate::laws::images_stand;
use crate::store::Store;
use outside::Disk;
use sync_ids::MessageId;
use sync_rules::{Batch, Clients};

impl Store {
    /// Commits a batch as `commit` does, and settles the journal behind it as `settle` does: they are
    /// added together, in four calls of the disk while they are within `MAX_GROUP` bytes.
    /// `Closed` comes exactly where an earlier call answered `DiskFault`; then `Full` exactly
    /// where the journal, the frame and the room that settling may then need pass the limit. After
    /// both all is as before, and no call on the disk was made. After `Memory` the journal is as
    /// before, or has the batch and a front of its settling; after `DiskFault` the store is
    /// closed.
    pub fn extend<D: Disk, C: Clients>(
        &mut self,
        disk: &mut D,
        clients: &C,
        batch: Batch,
    ) -> Result<(), StoreFault>
        requires ready { self.old.closed ≡ false
            → IsReady (C.meaning clients.now) self.old (D.tells disk.old).files }
        requires allowed { self.old.closed ≡ false
            → Allowed (C.meaning clients.now) self.old.state.facts batch }
        requires kind { is_settling_kind batch ≡ false }
        requires plain { is_account_kind batch ≡ false }
        ensures extended { self.old.closed ≡ false → HasExtended (C.meaning clients.now)
            self.old self.new batch result (D.tells disk.old) (D.tells disk.new) }
        ensures closed { self.old.closed ≡ true → (result ≡ Err StoreFault.Closed)
            × KeepsStore self.old self.new × (disk.new ≡ disk.old) }
        ensures full { IsErrOf result StoreFault.Full → disk.new ≡ disk.old }
        ensures ready { self.new.closed ≡ false
            → IsReady (C.meaning clients.now) self.new (D.tells disk.new).files }
        ensures run { DiskRun (D.tells disk.old) (D.tells disk.new) }
        ensures numbers { IsStore self.new }
        ensures fault { IsErrOf result StoreFault.DiskFault
            → CountRose (D.tells disk.old).disk_faults (D.tells disk.new).disk_faults }
    {
        self.extend_known(disk, clients, batch, None)
    }

    /// The same of a batch with the id of the one message that it brings, where the caller has it:
    /// it is not computed anew.
    pub fn extend_known<D: Disk, C: Clients>(
        &mut self,
        disk: &mut D,
        clients: &C,
        batch: Batch,
        id: Option<MessageId>,
    ) -> Result<(), StoreFault>
        requires ready { self.old.closed ≡ false
            → IsReady (C.meaning clients.now) self.old (D.tells disk.old).files }
        requires allowed { self.old.closed ≡ false
            → Allowed (C.meaning clients.now) self.old.state.facts batch }
        requires kind { is_settling_kind batch ≡ false }
        requires plain { is_account_kind batch ≡ false }
        requires named { IsOfAll id batch }
        ensures extended { self.old.closed ≡ false → HasExtended (C.meaning clients.now)
            self.old self.new batch result (D.tells disk.old) (D.tells disk.new) }
        ensures closed { self.old.closed ≡ true → (result ≡ Err StoreFault.Closed)
            × KeepsStore self.old self.new × (disk.new ≡ disk.old) }
        ensures full { IsErrOf result StoreFault.Full → disk.new ≡ disk.old }
        ensures ready { self.new.closed ≡ false
            → IsReady (C.meaning clients.now) self.new (D.tells disk.new).files }
        ensures run { DiskRun (D.tells disk.old) (D.tells disk.new) }
        ensures numbers { IsStore self.new }
        ensures fault { IsErrOf result StoreFault.DiskFault
            → CountRose (D.tells disk.old).disk_faults (D.tells disk.new).disk_faults }
    {
        if self.is_closed() {
            return Err(StoreFault::Closed);
        }
        images_stand();
        self.gather(clients, batch, id)?;
        self.settle_gathered(disk, clients)
    }
}
