//! Frames copied from the one file to the other, one after the other.
ghost use Rattle.std.specs.Prelude.{◌≡◌, ◌<◌, ◌≤◌, ◌+◌, IfOk, IsErrOf, OnOk, Some, List, ℕ, true};
ghost use Rattle.std.specs.Prelude.{OnErr, [], ◌∷◌};
ghost use Rattle.std.specs.Option.{ForSome};
ghost use Rattle.outside.specs.Disk.{RelatesTold};
ghost use Rattle.outside.specs.Faults.{CountRose};
ghost use Rattle.outside.specs.Files.{Two, File};
ghost use Rattle.outside.specs.Outside.{DiskRun};
ghost use Rattle.frame_journal.specs.Create.{LeavesClosed};
ghost use Rattle.sync_rules.specs.declared.entries.Entry.{Entry};
ghost use Rattle.sync_rules.specs.Clients.{Meaning};
ghost use Rattle.journal_migration.specs.Copying.{CopiesBatches, CopiesAll, IsFurther, IsGathering};
ghost use Rattle.journal_migration.specs.Copying.{GathersAll, GathersBatches, GathersNext};
ghost use Rattle.journal_migration.specs.Copying.{IsPair, IsSamePair, AreBothShut};
ghost use Rattle.journal_migration.specs.Starting.{ClearsAgain};

use crate::MigrationFault;
use crate::laws::cite_laws;
use crate::migrating::take_back;
use crate::spelling::respell;
use frame_journal::{Group, Journal};
use journal_state::State;
use outside::Disk;
use std::alloc::Global;

// Puts the next frame, before which the state held so many messages, behind those that wait in the
// group: how many its batch brings, or none at the closed gate.
fn copy_next<D: Disk>(
    alloc: Global,
    disk: &mut D,
    state: &State,
    count: u32,
    reader: &mut Journal,
    writer: &mut Journal,
    group: &mut Group,
    payload: &mut Vec<u8>,
) -> Result<Option<u32>, MigrationFault>
    requires pair { IsPair reader.old writer.old }
    requires waits { IsGathering reader.old writer.old group.old }
    requires works { ForSome (D.tells disk.old).files (AreBothShut reader.old writer.old) }
    ensures pair { OnOk result (IsPair reader.new writer.new) }
    ensures waits { OnOk result (IsGathering reader.new writer.new group.new) }
    ensures works { OnOk result (ForSome (D.tells disk.new).files (AreBothShut reader.new writer.new)) }
    ensures on { IfOk result (λ some. IsFurther some reader.old reader.new) }
    ensures same { OnOk result (IsSamePair reader.old reader.new writer.old writer.new) }
    ensures copies { (clients : Meaning) (generation : ℕ) (j : List (List Entry)) (two : Two File)
        → (D.tells disk.old).files ≡ Some two
        → GathersBatches clients state.now.facts generation j reader.old writer.old group.old count
        two
        → GathersNext clients state.now.facts generation j reader.old.file reader.new writer.new
        group.new count (D.tells disk.old) (D.tells disk.new) result }
    ensures leaves { RelatesTold (LeavesClosed writer.old.file) (D.tells disk.old).files
        (D.tells disk.new).files }
    ensures run { DiskRun (D.tells disk.old) (D.tells disk.new) }
    ensures fault { IsErrOf result MigrationFault.DiskFault
        → CountRose (D.tells disk.old).disk_faults (D.tells disk.new).disk_faults }
{
    cite_laws();
    state.show_sound();
    let more = reader.next_frame(disk, payload)?;
    if !more {
        return Ok(None);
    }
    let respelled = respell(alloc, state, count, payload.as_slice())?;
    writer.gather(disk, group, respelled.framed.as_slice())?;
    Ok(Some(respelled.brought))
}

// Copies all frames up to the closed gate, but for those that then wait in the group.
fn gather_all<D: Disk>(
    alloc: Global,
    disk: &mut D,
    state: &State,
    reader: &mut Journal,
    writer: &mut Journal,
    group: &mut Group,
) -> Result<(), MigrationFault>
    requires pair { IsPair reader.old writer.old }
    requires waits { IsGathering reader.old writer.old group.old }
    requires works { ForSome (D.tells disk.old).files (AreBothShut reader.old writer.old) }
    ensures pair { OnOk result (IsPair reader.new writer.new) }
    ensures waits { OnOk result (IsGathering reader.new writer.new group.new) }
    ensures same { OnOk result (IsSamePair reader.old reader.new writer.old writer.new) }
    ensures works { OnOk result (ForSome (D.tells disk.new).files (AreBothShut reader.new writer.new)) }
    ensures copies { (clients : Meaning) (generation : ℕ) (j : List (List Entry)) (two : Two File)
        → (D.tells disk.old).files ≡ Some two
        → GathersBatches clients state.now.facts generation j reader.old writer.old group.old 0 two
        → GathersAll clients generation j reader.old.file reader.new writer.new group.new
        (D.tells disk.old) (D.tells disk.new) result }
    ensures leaves { RelatesTold (LeavesClosed writer.old.file) (D.tells disk.old).files
        (D.tells disk.new).files }
    ensures run { DiskRun (D.tells disk.old) (D.tells disk.new) }
    ensures fault { IsErrOf result MigrationFault.DiskFault
        → CountRose (D.tells disk.old).disk_faults (D.tells disk.new).disk_faults }
{
    let mut payload = Vec::new(alloc);
    let mut count = 0u32;
    'frames: loop {
        match copy_next(
            alloc,
            disk,
            state,
            count,
            reader,
            writer,
            group,
            &mut payload,
        )? {
            Some(brought) => count = count.saturating_add(brought),
            None => return Ok(()),
        }
    }
}

// Copies all frames up to the closed gate, in groups.
fn copy_all<D: Disk>(
    alloc: Global,
    disk: &mut D,
    state: &State,
    reader: &mut Journal,
    writer: &mut Journal,
    group: &mut Group,
) -> Result<(), MigrationFault>
    requires pair { IsPair reader.old writer.old }
    requires empty { group.old ≡ 0 ∷ [] }
    requires works { ForSome (D.tells disk.old).files (AreBothShut reader.old writer.old) }
    ensures pair { OnOk result (IsPair reader.new writer.new) }
    ensures same { OnOk result (IsSamePair reader.old reader.new writer.old writer.new) }
    ensures works { OnOk result (ForSome (D.tells disk.new).files (AreBothShut reader.new writer.new)) }
    ensures copies { (clients : Meaning) (generation : ℕ) (j : List (List Entry)) (two : Two File)
        → (D.tells disk.old).files ≡ Some two
        → CopiesBatches clients state.now.facts generation j reader.old writer.old 0 two
        → CopiesAll clients generation j reader.old.file reader.new writer.new
        (D.tells disk.old) (D.tells disk.new) result }
    ensures leaves { RelatesTold (LeavesClosed writer.old.file) (D.tells disk.old).files
        (D.tells disk.new).files }
    ensures run { DiskRun (D.tells disk.old) (D.tells disk.new) }
    ensures fault { IsErrOf result MigrationFault.DiskFault
        → CountRose (D.tells disk.old).disk_faults (D.tells disk.new).disk_faults }
{
    gather_all(alloc, disk, state, reader, writer, group)?;
    writer.flush(disk, group)?;
    Ok(())
}

// Copies all frames up to the closed gate, which is to stand before this end.
fn copy_to<D: Disk>(
    alloc: Global,
    disk: &mut D,
    state: &State,
    end: u64,
    reader: &mut Journal,
    writer: &mut Journal,
    group: &mut Group,
) -> Result<(), MigrationFault>
    requires pair { IsPair reader.old writer.old }
    requires empty { group.old ≡ 0 ∷ [] }
    requires works { ForSome (D.tells disk.old).files (AreBothShut reader.old writer.old) }
    ensures pair { OnOk result (IsPair reader.new writer.new) }
    ensures same { OnOk result (IsSamePair reader.old reader.new writer.old writer.new) }
    ensures works { OnOk result (ForSome (D.tells disk.new).files (AreBothShut reader.new writer.new)) }
    ensures copies { (clients : Meaning) (generation : ℕ) (j : List (List Entry)) (two : Two File)
        → (D.tells disk.old).files ≡ Some two
        → CopiesBatches clients state.now.facts generation j reader.old writer.old 0 two
        → CopiesAll clients generation j reader.old.file reader.new writer.new
        (D.tells disk.old) (D.tells disk.new) result }
    ensures end { OnOk result (reader.new.end ≡ end) }
    ensures leaves { RelatesTold (LeavesClosed writer.old.file) (D.tells disk.old).files
        (D.tells disk.new).files }
    ensures run { DiskRun (D.tells disk.old) (D.tells disk.new) }
    ensures fault { IsErrOf result MigrationFault.DiskFault
        → CountRose (D.tells disk.old).disk_faults (D.tells disk.new).disk_faults }
{
    copy_all(alloc, disk, state, reader, writer, group)?;
    if reader.end() != end {
        return Err(MigrationFault::Memory);
    }
    Ok(())
}

// The same. What was written of the writer's file is taken back after a failure.
pub(crate) fn copy_whole<D: Disk>(
    alloc: Global,
    disk: &mut D,
    state: &State,
    end: u64,
    reader: &mut Journal,
    writer: &mut Journal,
    group: &mut Group,
) -> Result<(), MigrationFault>
    requires pair { IsPair reader.old writer.old }
    requires empty { group.old ≡ 0 ∷ [] }
    requires works { ForSome (D.tells disk.old).files (AreBothShut reader.old writer.old) }
    ensures pair { OnOk result (IsPair reader.new writer.new) }
    ensures same { OnOk result (IsSamePair reader.old reader.new writer.old writer.new) }
    ensures works { OnOk result (ForSome (D.tells disk.new).files (AreBothShut reader.new writer.new)) }
    ensures copies { (clients : Meaning) (generation : ℕ) (j : List (List Entry)) (two : Two File)
        → (D.tells disk.old).files ≡ Some two
        → CopiesBatches clients state.now.facts generation j reader.old writer.old 0 two
        → CopiesAll clients generation j reader.old.file reader.new writer.new
        (D.tells disk.old) (D.tells disk.new) result }
    ensures end { OnOk result (reader.new.end ≡ end) }
    ensures leaves { RelatesTold (LeavesClosed writer.old.file) (D.tells disk.old).files
        (D.tells disk.new).files }
    ensures back { ClearsAgain writer.old.file (D.tells disk.old).files (D.tells disk.new).files
        result }
    ensures run { DiskRun (D.tells disk.old) (D.tells disk.new) }
    ensures fault { IsErrOf result MigrationFault.DiskFault
        → CountRose (D.tells disk.old).disk_faults (D.tells disk.new).disk_faults }
{
    let file = writer.file();
    match copy_to(alloc, disk, state, end, reader, writer, group) {
        Ok(()) => Ok(()),
        Err(fault) => Err(take_back(disk, file, fault)),
    }
}
