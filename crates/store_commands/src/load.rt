// A store that is loaded, or what the command comes to without one.
ghost use Rattle.std.specs.Prelude.{◌≡◌, Some};
ghost use Rattle.outside.specs.Disk.{RelatesTold};
ghost use Rattle.outside.specs.Files.{File, ReadsSame, Two, read_files};
ghost use Rattle.outside.specs.Outside.{DiskRun};
ghost use Rattle.file_standing.specs.Standing.{stands};
ghost use Rattle.store_commands.specs.Show.{LeavesFilesSo};
ghost use Rattle.store_commands.specs.Load.{IsLoaded, IsStoreOpened, LoadLeavesSettled, LoadedBy};
ghost use Rattle.store_commands.specs.Load.{LoadKeeps};

use outside::{Disk, MAX_JOURNAL};
use std::alloc::Global;
use std::hash::RandomState;
use sync_rules::Clients;
use sync_store::{LoadFault, Store};
use sync_words::Outcome;

/// Loads the store of these files.
pub fn load_store<D: Disk, C: Clients>(
    alloc: Global,
    hasher: RandomState,
    disk: &mut D,
    clients: &C,
) -> Result<Store, Outcome>
    ensures run { DiskRun (D.tells disk.old) (D.tells disk.new) }
    ensures by { LoadedBy (D.tells disk.old) (D.tells disk.new) result }
    ensures rests { (two : Two File) → (D.tells disk.old).files ≡ Some two
        → LeavesFilesSo (LoadKeeps result two) two (D.tells disk.old) (D.tells disk.new) }
    ensures loaded { (two : Two File) → (D.tells disk.old).files ≡ Some two
        → IsLoaded (stands (C.meaning clients.now) (read_files two)) result }
    ensures settled { LoadLeavesSettled (D.tells disk.old).files (D.tells disk.new).files result }

    // Whatever it answers, the files read as before.
    ensures reads { RelatesTold ReadsSame (D.tells disk.old).files (D.tells disk.new).files }
    ensures opened { IsStoreOpened (C.meaning clients.now) (D.tells disk.new).files result }
{
    match Store::load(alloc, hasher, disk, clients, MAX_JOURNAL) {
        Ok(store) => Ok(store),
        Err(LoadFault::Memory) => Err(Outcome::Memory),
        Err(LoadFault::DiskFault) => Err(Outcome::DiskFault),
        Err(LoadFault::NoStore) => Err(Outcome::NoStore),
        Err(LoadFault::Damaged(place)) => Err(Outcome::Damaged(place)),
    }
}
