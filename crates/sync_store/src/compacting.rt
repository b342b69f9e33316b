//! A journal replaced by its brief account.
ghost use Rattle.std.specs.Prelude.{◌≡◌, ◌-◌, ◌^◌, ◌<◌, Err, IsErrOf, false, true};
ghost use Rattle.entry_codec.specs.declared.naming.Format.TheVariants as kind;
ghost use Rattle.outside.specs.Faults.{CountRose};
ghost use Rattle.outside.specs.Outside.{DiskRun};
ghost use Rattle.sync_rules.specs.Steps.{IsSettled};
ghost use Rattle.sync_store.specs.Compactions.{StoreHasCompacted};
ghost use Rattle.sync_store.specs.Ready.{IsReady};
ghost use Rattle.sync_store.specs.Store.{IsStore, written_in};

use crate::StoreFault;
use crate::laws::cite_laws;
use crate::store::Store;
use journal_compaction::{CompactionFault, compact};
use outside::Disk;
use sync_rules::Clients;

impl Store {
    /// Replaces a settled journal of format 2 by its brief account, which has the same facts but for
    /// the sessions that are over: the other file is cleared and prepared with the next generation,
    /// each batch of the account is appended to it, and then its header's gate is opened. At each
    /// moment the files stand for the journal or for its brief account, and after `Ok` every crash
    /// leaves the latter; the store then has no session that goes on.
    ///
    /// `Closed` comes exactly where an earlier call answered `DiskFault`; then `Full` exactly where
    /// the generation is 2^64 - 1, or the brief account and the room that settling may need pass the
    /// limit. After both no call on the disk was made; after them and after `Memory` all is as
    /// before; after `DiskFault` the store is closed. It takes memory for a second copy of the
    /// messages.
    pub fn compact<D: Disk, C: Clients>(
        &mut self,
        disk: &mut D,
        clients: &C,
    ) -> Result<(), StoreFault>
        requires ready { self.old.closed ≡ false
            → IsReady (C.meaning clients.now) self.old (D.tells disk.old).files }
        requires settled { self.old.closed ≡ false
            → IsSettled (C.meaning clients.now) self.old.state.facts }
        requires short { self.old.closed ≡ false → written_in self.old ≡ kind.Short }
        ensures compacted { self.old.closed ≡ false
            → StoreHasCompacted (C.meaning clients.now) self.old self.new result (D.tells disk.old)
            (D.tells disk.new) }
        ensures closed { self.old.closed ≡ true → (result ≡ Err StoreFault.Closed)
            × (self.new ≡ self.old) × (disk.new ≡ disk.old) }
        ensures full { IsErrOf result StoreFault.Full → disk.new ≡ disk.old }
        ensures ready { self.new.closed ≡ false
            → IsReady (C.meaning clients.now) self.new (D.tells disk.new).files }
        ensures run { DiskRun (D.tells disk.old) (D.tells disk.new) }
        ensures numbers { IsStore self.new }
        ensures fault { IsErrOf result StoreFault.DiskFault
            → CountRose (D.tells disk.old).disk_faults (D.tells disk.new).disk_faults }
    {
        if self.is_closed() {
            return Err(StoreFault::Closed);
        }
        cite_laws();
        if self.generation() == u64::MAX {
            return Err(StoreFault::Full);
        }
        self.shorten(disk, clients)
    }

    // The same of a journal for which there is a further generation.
    fn shorten<D: Disk, C: Clients>(&mut self, disk: &mut D, clients: &C) -> Result<(), StoreFault>
        requires ready { IsReady (C.meaning clients.now) self.old (D.tells disk.old).files }
        requires settled { IsSettled (C.meaning clients.now) self.old.state.facts }
        requires short { written_in self.old ≡ kind.Short }
        requires generation { self.old.generation < 2 ^ 64 - 1 }
        ensures compacted { StoreHasCompacted (C.meaning clients.now) self.old self.new result
            (D.tells disk.old) (D.tells disk.new) }
        ensures full { IsErrOf result StoreFault.Full → disk.new ≡ disk.old }
        ensures ready { self.new.closed ≡ false
            → IsReady (C.meaning clients.now) self.new (D.tells disk.new).files }
        ensures run { DiskRun (D.tells disk.old) (D.tells disk.new) }
        ensures numbers { IsStore self.new }
        ensures fault { IsErrOf result StoreFault.DiskFault
            → CountRose (D.tells disk.old).disk_faults (D.tells disk.new).disk_faults }
    {
        cite_laws();
        match compact(
            self.alloc,
            disk,
            &self.journal,
            self.limit,
            &self.state,
            clients,
        ) {
            Ok(journal) => {
                self.journal = journal;
                self.state.forget();
                Ok(())
            }
            Err(CompactionFault::Full) => Err(StoreFault::Full),
            Err(CompactionFault::Memory) => Err(StoreFault::Memory),
            Err(CompactionFault::DiskFault) => {
                self.closed = true;
                Err(StoreFault::DiskFault)
            }
        }
    }
}
