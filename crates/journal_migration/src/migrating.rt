//! The other file prepared, the frames copied, and the copy published.
ghost use Rattle.std.specs.Prelude.{◌≡◌, ◌-◌, ◌^◌, ◌<◌, ◌≤◌, IfOk, IsErrOf, OnOk, Some, List, ℕ};
ghost use Rattle.std.specs.Option.{ForSome};
ghost use Rattle.outside.specs.Faults.{HasCause, CountRose};
ghost use Rattle.outside.specs.Files.{Two, File, file_of};
ghost use Rattle.outside.specs.Outside.{DiskRun};
ghost use Rattle.outside.specs.Disk.{RelatesTold};
ghost use Rattle.frame_journal.specs.Create.{LeavesClosed, PreparesJournal, StaysClosed};
ghost use Rattle.frame_journal.specs.Journal.{fresh_journal};
ghost use Rattle.sync_rules.specs.declared.entries.Entry.{Entry};
ghost use Rattle.sync_rules.specs.Clients.{Meaning};
ghost use Rattle.sync_rules.specs.Facts.{facts};
ghost use Rattle.journal_migration.specs.Migrating.{HoldsFirst, IsNextJournal, MigratesJournal};
ghost use Rattle.journal_migration.specs.Migrating.{ReadsOnly, TakesBack, other_number};
ghost use Rattle.journal_migration.specs.Starting.{EndsOrStays, IsSettledBoth, IsShutAndSettled};
ghost use Rattle.journal_migration.specs.Starting.{IsTakenBack, StaysShut};

use crate::MigrationFault;
use crate::copying::copy_whole;
use crate::laws::cite_laws;
use frame_journal::{
    DiskFault, Group, Journal, SECOND_FORMAT, clear_back, cut_back, prepare, publish, shorten,
    shut_gate,
};
use journal_state::State;
use outside::Disk;
use std::alloc::Global;

/// Writes the journal in this file, which has format 1 and this generation and ends there, into the
/// other file in format 2, with the next generation, and makes it the journal: the other file is
/// cleared and prepared, every batch is appended to it, in groups of `MAX_GROUP` bytes at most, and
/// then its header's gate is opened. The state is that of the journal. It answers the new journal.
///
/// At each moment the files stand for the same journal, and after `Memory` they still hold it as
/// before. The journal's own file is only read. Where the second reading of the file gives a frame
/// that is damaged, a payload that is no batch, a message that is not held, or another end, nothing
/// is published, and the answer is `Memory` too. It takes the memory of one group, before it changes
/// anything, and of one frame.
///
/// Once the other file's gate is closed, and before it is opened, what was written of that file is
/// taken back after a failure (`take_back`): after `Memory` it is as it was, or one byte long.
pub fn migrate<D: Disk>(
    alloc: Global,
    disk: &mut D,
    file: u8,
    generation: u64,
    end: u64,
    state: &State,
) -> Result<Journal, MigrationFault>
    requires file { file < 2 }
    requires generation { generation < 2 ^ 64 - 1 }
    requires settled { ForSome (D.tells disk.old).files IsSettledBoth }
    ensures next { IfOk result (λ n. IsNextJournal file generation end n) }
    ensures migrates { (clients : Meaning) (j : List (List Entry)) (two : Two File)
        → (D.tells disk.old).files ≡ Some two → facts j ≡ state.now.facts
        → HoldsFirst clients file generation j two
        → MigratesJournal clients file generation j (D.tells disk.old) (D.tells disk.new) result }
    ensures own { ReadsOnly file (D.tells disk.old).files (D.tells disk.new).files result }
    ensures back { TakesBack (other_number file) (D.tells disk.old).files (D.tells disk.new).files
        result }
    ensures run { DiskRun (D.tells disk.old) (D.tells disk.new) }
    ensures fault { IsErrOf result MigrationFault.DiskFault
        → CountRose (D.tells disk.old).disk_faults (D.tells disk.new).disk_faults }
{
    cite_laws();
    let mut reader = Journal::start(disk)?;
    if reader.file() != file || reader.generation() != generation {
        return Err(MigrationFault::Memory);
    }
    let mut group = Group::new(alloc)?;
    let mut writer = begin(disk, 1 - file, generation + 1)?;
    copy_whole(
        alloc,
        disk,
        state,
        end,
        &mut reader,
        &mut writer,
        &mut group,
    )?;
    publish(disk, writer.file())?;
    Ok(writer)
}

/// Begins a journal of format 2 with this generation in this file, all but the gate of its header:
/// the file is cleared and prepared. At each moment until then it is as it was or has no open
/// header. A failure once its gate is closed is followed by one cut of the file to its first byte,
/// which is not waited for. It takes no memory.
pub fn begin<D: Disk>(disk: &mut D, file: u8, generation: u64) -> Result<Journal, DiskFault>
    requires file { file < 2 }
    requires settled { ForSome (D.tells disk.old).files IsSettledBoth }
    ensures value { IfOk result (λ n. n ≡ fresh_journal file 2 generation) }
    ensures prepared { OnOk result (RelatesTold (PreparesJournal file 2 generation) (D.tells disk.old).files
        (D.tells disk.new).files) }
    ensures moments { EndsOrStays file (D.tells disk.old) (D.tells disk.new) }
    ensures run { DiskRun (D.tells disk.old) (D.tells disk.new) }
    ensures fault { HasCause (D.tells disk.old).disk_faults (D.tells disk.new).disk_faults result }
{
    shut_gate(disk, file)?;
    match fill_header(disk, file, generation) {
        Ok(()) => Ok(Journal::fresh(file, SECOND_FORMAT, generation)),
        Err(fault) => {
            // Where the cut fails too the file stays as long as the failure left it.
            let _ = cut_back(disk, file);
            Err(fault)
        }
    }
}

// Cuts a file to its first byte, which is no open gate, and writes all of the header behind it.
fn fill_header<D: Disk>(disk: &mut D, file: u8, generation: u64) -> Result<(), DiskFault>
    requires file { file < 2 }
    requires shut { ForSome (D.tells disk.old).files (IsShutAndSettled file) }
    ensures prepared { OnOk result (RelatesTold (PreparesJournal file 2 generation)
        (D.tells disk.old).files (D.tells disk.new).files) }
    ensures moments { StaysShut file (D.tells disk.old) (D.tells disk.new) }
    ensures leaves { RelatesTold (LeavesClosed file) (D.tells disk.old).files
        (D.tells disk.new).files }
    ensures run { DiskRun (D.tells disk.old) (D.tells disk.new) }
    ensures fault { HasCause (D.tells disk.old).disk_faults (D.tells disk.new).disk_faults result }
{
    shorten(disk, file)?;
    prepare(disk, file, SECOND_FORMAT, generation)
}

/// Takes back what was written of a file whose header no crash opens, once that failed: the file is
/// cut to its first byte, so that a disk that is full stays usable. Behind `DiskFault` the cut is
/// not waited for, and where it fails too the file stays as it is; no call succeeds on a file of
/// which a sync failed. Behind `Memory` the store goes on, so it is waited for, and the answer is
/// `DiskFault` where that fails. At each moment the file has no open header.
pub fn take_back<D: Disk>(disk: &mut D, file: u8, fault: MigrationFault) -> MigrationFault
    requires file { file < 2 }
    requires closed { ForSome (D.tells disk.old).files (λ two. StaysClosed (file_of two file)) }
    ensures back { IsTakenBack file fault (D.tells disk.old) (D.tells disk.new) result }
    ensures moments { StaysShut file (D.tells disk.old) (D.tells disk.new) }
    ensures leaves { RelatesTold (LeavesClosed file) (D.tells disk.old).files
        (D.tells disk.new).files }
    ensures run { DiskRun (D.tells disk.old) (D.tells disk.new) }
{
    match fault {
        MigrationFault::Memory => match clear_back(disk, file) {
            Ok(()) => MigrationFault::Memory,
            Err(_) => MigrationFault::DiskFault,
        },
        MigrationFault::DiskFault => {
            let _ = cut_back(disk, file);
            MigrationFault::DiskFault
        }
    }
}
