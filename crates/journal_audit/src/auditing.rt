//! The audit.
ghost use Rattle.std.specs.Prelude.{◌≡◌, IsErrOf, Some};
ghost use Rattle.std.specs.Option.{ForSome};
ghost use Rattle.outside.specs.Disk.{RelatesTold};
ghost use Rattle.outside.specs.Faults.{CountRose};
ghost use Rattle.outside.specs.Files.{File, ReadsSame, Two, read_files};
ghost use Rattle.outside.specs.Outside.{AnyImage, DiskRun, OnlyReads};
ghost use Rattle.journal_audit.specs.Answers.{IsAudited, AuditLeavesSettled};
ghost use Rattle.journal_audit.specs.declared.fault.AuditFault.TheVariants as fault;

use crate::AuditFault;
use crate::files::{sync_both, take_file};
use crate::report::{Report, report_of};
use outside::Disk;
use std::alloc::Global;
use sync_rules::Clients;

// The report of two files that only are read.
fn audit_read<D: Disk, C: Clients>(
    alloc: Global,
    disk: &mut D,
    clients: &C,
) -> Result<Report, AuditFault>
    ensures answer { ForSome (D.tells disk.old).files (λ two. IsAudited (C.meaning clients.now)
        (read_files two) result) }
    ensures looks { OnlyReads (D.tells disk.old) (D.tells disk.new) }
    ensures fault { IsErrOf result AuditFault.DiskFault
        → CountRose (D.tells disk.old).disk_faults (D.tells disk.new).disk_faults }
{
    let taken = take_file(alloc, disk)?;
    report_of(alloc, clients, &taken)
}

/// Reads the two files of a store, of either format, and reports what their journal says: a second
/// opinion on what a store keeps, by a reader of frames, a state and a search for the next step of
/// its own. It syncs both files first, and writes nothing.
/// A report comes exactly where the files stand for a journal, which is then legal; where it is
/// settled, the good messages are as many as were delivered, and the bad ones as many as are
/// invalid. `NoStore` comes exactly where no file has an open header, `Damaged` exactly where the
/// files stand for no legal journal, with the first place that shows it, and `DiskFault` only where
/// a call on the disk failed. As want of memory counts that 2^32 messages are held, or that a count
/// is 2^64.
pub fn audit<D: Disk, C: Clients>(
    alloc: Global,
    disk: &mut D,
    clients: &C,
) -> Result<Report, AuditFault>
    ensures answer { (two : Two File) → (D.tells disk.old).files ≡ Some two
        → IsAudited (C.meaning clients.now) (read_files two) result }

    // At each moment a crash leaves what it might have left before.
    ensures any_moment { AnyImage (D.tells disk.old) (D.tells disk.new) }
    ensures settled { AuditLeavesSettled (D.tells disk.old).files (D.tells disk.new).files result }

    // Whatever it answers, the files read as before.
    ensures reads { RelatesTold ReadsSame (D.tells disk.old).files (D.tells disk.new).files }
    ensures run { DiskRun (D.tells disk.old) (D.tells disk.new) }
    ensures fault { IsErrOf result AuditFault.DiskFault
        → CountRose (D.tells disk.old).disk_faults (D.tells disk.new).disk_faults }
{
    sync_both(disk)?;
    audit_read(alloc, disk, clients)
}
