//! A journal of format 1 written anew in format 2.
ghost use Rattle.std.specs.Prelude.{◌≡◌, Err, IsErrOf, false, true};
ghost use Rattle.outside.specs.Faults.{CountRose};
ghost use Rattle.outside.specs.Outside.{DiskRun};
ghost use Rattle.sync_store.specs.Migrations.{HasMigrated, IsInOldFormat, UntouchedDisk};
ghost use Rattle.sync_store.specs.Ready.{IsReady};
ghost use Rattle.sync_store.specs.Store.{IsStore};

use crate::StoreFault;
use crate::formats::format_meant;
use crate::laws::cite_laws;
use crate::store::Store;
use entry_codec::Format;
use journal_migration::{MigrationFault, migrate};
use outside::Disk;
use sync_rules::Clients;

impl Store {
    /// Writes a journal of format 1 anew in format 2: the other file is cleared and prepared with the
    /// next generation, every batch is appended to it, and then its header's gate is opened. For
    /// format 2 it does nothing. At each moment the files stand for the same journal. `Closed` comes
    /// exactly where an earlier call answered `DiskFault`; then `Full` exactly where the format is 1
    /// and the generation 2^64 - 1. After both, and after `Memory`, all is as before; after
    /// `DiskFault` the store is closed. It takes the memory of one frame. Where the second reading of
    /// the file gives other bytes than the first, nothing is published, and the answer is `Memory`.
    pub fn migrate<D: Disk, C: Clients>(
        &mut self,
        disk: &mut D,
        clients: &C,
    ) -> Result<(), StoreFault>
        requires ready { self.old.closed ≡ false
            → IsReady (C.meaning clients.now) self.old (D.tells disk.old).files }
        ensures migrated { self.old.closed ≡ false
            → HasMigrated (C.meaning clients.now) self.old self.new result (D.tells disk.old)
            (D.tells disk.new) }
        ensures closed { self.old.closed ≡ true → (result ≡ Err StoreFault.Closed)
            × (self.new ≡ self.old) × (disk.new ≡ disk.old) }
        ensures untouched { UntouchedDisk self.old disk.old disk.new }
        ensures ready { self.new.closed ≡ false
            → IsReady (C.meaning clients.now) self.new (D.tells disk.new).files }
        ensures run { DiskRun (D.tells disk.old) (D.tells disk.new) }
        ensures numbers { IsStore self.new }
        ensures fault { IsErrOf result StoreFault.DiskFault
            → CountRose (D.tells disk.old).disk_faults (D.tells disk.new).disk_faults }
    {
        if self.is_closed() {
            return Err(StoreFault::Closed);
        }
        cite_laws();
        match format_meant(self.format()) {
            Format::Short => Ok(()),
            Format::Whole => {
                if self.generation() == u64::MAX {
                    return Err(StoreFault::Full);
                }
                self.move_on(disk, clients)
            }
        }
    }

    // The same of a journal in format 1 for which there is a further generation.
    fn move_on<D: Disk, C: Clients>(&mut self, disk: &mut D, clients: &C) -> Result<(), StoreFault>
        requires ready { IsReady (C.meaning clients.now) self.old (D.tells disk.old).files }
        requires old { IsInOldFormat self.old }
        ensures migrated { HasMigrated (C.meaning clients.now) self.old self.new result
            (D.tells disk.old) (D.tells disk.new) }
        ensures ready { self.new.closed ≡ false
            → IsReady (C.meaning clients.now) self.new (D.tells disk.new).files }
        ensures run { DiskRun (D.tells disk.old) (D.tells disk.new) }
        ensures numbers { IsStore self.new }
        ensures fault { IsErrOf result StoreFault.DiskFault
            → CountRose (D.tells disk.old).disk_faults (D.tells disk.new).disk_faults }
    {
        let _meaning = clients;
        cite_laws();
        let file = self.journal.file();
        let generation = self.journal.generation();
        let end = self.end();
        match migrate(self.alloc, disk, file, generation, end, &self.state) {
            Ok(journal) => {
                self.journal = journal;
                Ok(())
            }
            Err(MigrationFault::Memory) => Err(StoreFault::Memory),
            Err(MigrationFault::DiskFault) => {
                self.closed = true;
                Err(StoreFault::DiskFault)
            }
        }
    }
}
