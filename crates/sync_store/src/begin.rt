//! A store begun.
ghost use Rattle.std.specs.Prelude.{◌≡◌, Some, IfOk, IsErrOf, OnOk};
ghost use Rattle.std.specs.Option.{ForSome};
ghost use Rattle.outside.specs.Faults.{HasCause, CountRose};
ghost use Rattle.outside.specs.Files.{File, SyncsBoth, Two};
ghost use Rattle.outside.specs.Outside.{AnyImage, DiskRun, MomentsAre, OnlyReads};
ghost use Rattle.outside.specs.Disk.{RelatesTold};
ghost use Rattle.sync_store.specs.Begin.{BeginsJournal, InitMoment, IsAnswer, IsFree, has_open};

use crate::InitFault;
use crate::laws::cite_laws;
use crate::store::Store;
use frame_journal::{DiskFault, SECOND_FORMAT, barrier, clear, create, read_header};
use outside::Disk;

impl Store {
    /// Begins a store in two files: in file 0, with format 2 and generation 1. `Exists` comes
    /// exactly where a file has an open header, and then the files read as before. At each moment
    /// the files are as a crash might have left them before, or, where no header was open, stand
    /// for no store or for the empty journal; after `Ok` every crash leaves the empty journal. It
    /// takes no memory.
    pub fn init<D: Disk>(disk: &mut D) -> Result<(), InitFault>
        ensures answer { ForSome (D.tells disk.old).files (λ two. IsAnswer two result) }
        ensures begun { OnOk result (RelatesTold BeginsJournal (D.tells disk.old).files
            (D.tells disk.new).files) }
        ensures kept { IsErrOf result InitFault.Exists
            → RelatesTold SyncsBoth (D.tells disk.old).files (D.tells disk.new).files }
        ensures untouched { IsErrOf result InitFault.Exists
            → AnyImage (D.tells disk.old) (D.tells disk.new) }
        ensures any_moment { (two : Two File) → (D.tells disk.old).files ≡ Some two
            → MomentsAre (D.tells disk.old) (D.tells disk.new)
            (InitMoment two (D.tells disk.old).links) }
        ensures run { DiskRun (D.tells disk.old) (D.tells disk.new) }
        ensures fault { IsErrOf result InitFault.DiskFault
            → CountRose (D.tells disk.old).disk_faults (D.tells disk.new).disk_faults }
    {
        let found = look(disk)?;
        if found {
            return Err(InitFault::Exists);
        }
        begin(disk)?;
        Ok(())
    }
}

// Syncs both files, and says whether some file has an open header.
fn look<D: Disk>(disk: &mut D) -> Result<bool, DiskFault>
    ensures settled { OnOk result (RelatesTold SyncsBoth (D.tells disk.old).files
        (D.tells disk.new).files) }
    ensures found { IfOk result (λ found. ForSome (D.tells disk.old).files
        (λ two. has_open two ≡ found)) }
    ensures any_moment { AnyImage (D.tells disk.old) (D.tells disk.new) }
    ensures run { DiskRun (D.tells disk.old) (D.tells disk.new) }
    ensures fault { HasCause (D.tells disk.old).disk_faults (D.tells disk.new).disk_faults result }
{
    barrier(disk)?;
    any_open(disk)
}

// Whether some file has an open header.
fn any_open<D: Disk>(disk: &mut D) -> Result<bool, DiskFault>
    ensures found { IfOk result (λ found. ForSome (D.tells disk.old).files
        (λ two. has_open two ≡ found)) }
    ensures looks { OnlyReads (D.tells disk.old) (D.tells disk.new) }
    ensures fault { HasCause (D.tells disk.old).disk_faults (D.tells disk.new).disk_faults result }
{
    let first = read_header(disk, 0)?;
    let second = read_header(disk, 1)?;
    Ok(first.is_some() || second.is_some())
}

// Begins a journal in file 0, where no file has an open header.
fn begin<D: Disk>(disk: &mut D) -> Result<(), DiskFault>
    requires { ForSome (D.tells disk.old).files IsFree }
    ensures begun { OnOk result (RelatesTold BeginsJournal (D.tells disk.old).files (D.tells disk.new).files) }
    ensures any_moment { (two : Two File) → (D.tells disk.old).files ≡ Some two
        → MomentsAre (D.tells disk.old) (D.tells disk.new)
        (InitMoment two (D.tells disk.old).links) }
    ensures run { DiskRun (D.tells disk.old) (D.tells disk.new) }
    ensures fault { HasCause (D.tells disk.old).disk_faults (D.tells disk.new).disk_faults result }
{
    cite_laws();
    clear(disk, 0)?;
    create(disk, 0, SECOND_FORMAT, 1)?;
    Ok(())
}
