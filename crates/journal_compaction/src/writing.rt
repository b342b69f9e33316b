//! Items written into a prepared file, in frames.
ghost use Rattle.std.specs.Prelude.{◌≡◌, ◌+◌, ◌-◌, ◌≤◌, ◌++◌, [], ◌∷◌, length, IfOk, IsErrOf, OnErr, OnOk};
ghost use Rattle.std.specs.List.{AllByRecursion};
ghost use Rattle.std.specs.Option.{ForSome};
ghost use Rattle.outside.specs.Disk.{RelatesTold};
ghost use Rattle.outside.specs.Faults.{CountRose};
ghost use Rattle.outside.specs.Outside.{DiskRun};
ghost use Rattle.frame_journal.specs.Create.{LeavesClosed};
ghost use Rattle.frame_journal.specs.Gathering.{GathersFrames, WritesPayloads};
ghost use Rattle.frame_journal.specs.Group.{IsGroup, group_len};
ghost use Rattle.entry_codec.specs.Spelling.{IsEntry};
ghost use Rattle.journal_compaction.specs.Items.{IsItem, bytes_of, entry_of};
ghost use Rattle.journal_compaction.specs.Paging.{frames_len, left_after, page_for, pages};
ghost use Rattle.journal_compaction.specs.Paging.{written_for};
ghost use Rattle.journal_compaction.specs.Planning.{AreItemsKnown, AreWritten, plan_pages};
ghost use Rattle.journal_compaction.specs.Writing.{HasSpace, IsWriterShut};
ghost use Rattle.journal_migration.specs.Starting.{ClearsAgain, StaysShut};

use crate::items::{Item, append_item};
use crate::page::Page;
use crate::paging::{joins, left_after};
use crate::plan::Plan;
use frame_journal::Journal;
use journal_migration::{MigrationFault, take_back};
use journal_state::State;
use outside::{Disk, MAX_JOURNAL};
use sync_rules::{MAX_ROWS, MAX_STEPS};

/// Puts an item's entry into the payload that is being filled, which takes so many more, or into a
/// new one that takes so many at most; the former is then put behind the frames that wait. Answers
/// how many more the payload takes now.
fn write_item<D: Disk>(
    disk: &mut D,
    state: &State,
    item: Item,
    left: usize,
    most: usize,
    writer: &mut Journal,
    page: &mut Page,
) -> Result<usize, MigrationFault>
    requires there { IsItem state.now.facts item }
    requires some { 1 ≤ most }
    requires few { most ≤ MAX_ROWS }
    requires space { HasSpace left page.old.payload.items }
    requires waits { IsGroup page.old.group }
    requires room { writer.old.end + group_len page.old.group
        + frames_len (written_for left page.old.payload.items item) ≤ MAX_JOURNAL }
    requires works { ForSome (D.tells disk.old).files (IsWriterShut writer.old) }
    ensures left { IfOk result (λ more. more ≡ left_after most left item) }
    ensures page { OnOk result (page.new.payload.items
        ≡ page_for left page.old.payload.items item ++ bytes_of state.now.facts item) }
    ensures space { IfOk result (λ more. HasSpace more page.new.payload.items) }
    ensures within { OnOk result (IsEntry (entry_of state.now.facts item)) }
    ensures adding { OnOk result (GathersFrames writer.old writer.new page.old.group page.new.group
        (written_for left page.old.payload.items item) (D.tells disk.old).files
        (D.tells disk.new).files) }
    ensures waits { OnOk result (IsGroup page.new.group) }
    ensures works { OnOk result (ForSome (D.tells disk.new).files (IsWriterShut writer.new)) }
    ensures shut { StaysShut writer.old.file (D.tells disk.old) (D.tells disk.new) }
    ensures leaves { RelatesTold (LeavesClosed writer.old.file) (D.tells disk.old).files
        (D.tells disk.new).files }
    ensures run { DiskRun (D.tells disk.old) (D.tells disk.new) }
    ensures fault { IsErrOf result MigrationFault.DiskFault
        → CountRose (D.tells disk.old).disk_faults (D.tells disk.new).disk_faults }
{
    page.flush(disk, writer, joins(left, item))?;
    append_item(state, item, &mut page.payload)?;
    Ok(left_after(most, left, item))
}

/// Puts items into frames, where a payload takes so many at most of those that do not stand alone.
pub(crate) fn write_items<D: Disk>(
    disk: &mut D,
    state: &State,
    items: &[Item],
    most: usize,
    writer: &mut Journal,
    page: &mut Page,
) -> Result<(), MigrationFault>
    requires there { AllByRecursion (IsItem state.now.facts) items.now }
    requires some { 1 ≤ most }
    requires few { most ≤ MAX_ROWS }
    requires empty { page.old.payload.items ≡ [] }
    requires waits { IsGroup page.old.group }
    requires room { writer.old.end + group_len page.old.group
        + frames_len (pages state.now.facts most 0 [] items.now) ≤ MAX_JOURNAL }
    requires works { ForSome (D.tells disk.old).files (IsWriterShut writer.old) }
    ensures empty { OnOk result (page.new.payload.items ≡ []) }
    ensures within { OnOk result
        (AllByRecursion (λ i. IsEntry (entry_of state.now.facts i)) items.now) }
    ensures adding { OnOk result (GathersFrames writer.old writer.new page.old.group page.new.group
        (pages state.now.facts most 0 [] items.now) (D.tells disk.old).files
        (D.tells disk.new).files) }
    ensures waits { OnOk result (IsGroup page.new.group) }
    ensures works { OnOk result (ForSome (D.tells disk.new).files (IsWriterShut writer.new)) }
    ensures shut { StaysShut writer.old.file (D.tells disk.old) (D.tells disk.new) }
    ensures leaves { RelatesTold (LeavesClosed writer.old.file) (D.tells disk.old).files
        (D.tells disk.new).files }
    ensures run { DiskRun (D.tells disk.old) (D.tells disk.new) }
    ensures fault { IsErrOf result MigrationFault.DiskFault
        → CountRose (D.tells disk.old).disk_faults (D.tells disk.new).disk_faults }
{
    let mut left = 0usize;
    'items: for item in items {
        left = write_item(disk, state, *item, left, most, writer, page)?;
    }
    page.flush(disk, writer, false)
}

// Writes all items of a plan, but for those whose frames then wait.
fn write_plan<D: Disk>(
    disk: &mut D,
    state: &State,
    plan: &Plan,
    writer: &mut Journal,
    page: &mut Page,
) -> Result<(), MigrationFault>
    requires planned { AreItemsKnown state.now.facts plan.now }
    requires empty { page.old.payload.items ≡ [] }
    requires waits { IsGroup page.old.group }
    requires room { writer.old.end + group_len page.old.group
        + frames_len (plan_pages state.now.facts plan.now) ≤ MAX_JOURNAL }
    requires works { ForSome (D.tells disk.old).files (IsWriterShut writer.old) }
    ensures within { OnOk result (AreWritten state.now.facts plan.now) }
    ensures adding { OnOk result (GathersFrames writer.old writer.new page.old.group page.new.group
        (plan_pages state.now.facts plan.now) (D.tells disk.old).files (D.tells disk.new).files) }
    ensures waits { OnOk result (IsGroup page.new.group) }
    ensures works { OnOk result (ForSome (D.tells disk.new).files (IsWriterShut writer.new)) }
    ensures shut { StaysShut writer.old.file (D.tells disk.old) (D.tells disk.new) }
    ensures leaves { RelatesTold (LeavesClosed writer.old.file) (D.tells disk.old).files
        (D.tells disk.new).files }
    ensures run { DiskRun (D.tells disk.old) (D.tells disk.new) }
    ensures fault { IsErrOf result MigrationFault.DiskFault
        → CountRose (D.tells disk.old).disk_faults (D.tells disk.new).disk_faults }
{
    write_items(disk, state, plan.head.as_slice(), MAX_STEPS, writer, page)?;
    write_items(disk, state, plan.told.as_slice(), MAX_STEPS, writer, page)?;
    write_items(disk, state, plan.peers.as_slice(), MAX_ROWS, writer, page)
}

// Writes all items of a plan, in groups.
fn write_whole<D: Disk>(
    disk: &mut D,
    state: &State,
    plan: &Plan,
    writer: &mut Journal,
    page: &mut Page,
) -> Result<(), MigrationFault>
    requires planned { AreItemsKnown state.now.facts plan.now }
    requires empty { page.old.payload.items ≡ [] }
    requires none { page.old.group ≡ 0 ∷ [] }
    requires room { writer.old.end + frames_len (plan_pages state.now.facts plan.now)
        ≤ MAX_JOURNAL }
    requires works { ForSome (D.tells disk.old).files (IsWriterShut writer.old) }
    ensures within { OnOk result (AreWritten state.now.facts plan.now) }
    ensures adding { OnOk result (WritesPayloads writer.old writer.new
        (plan_pages state.now.facts plan.now) (D.tells disk.old).files (D.tells disk.new).files) }
    ensures works { OnOk result (ForSome (D.tells disk.new).files (IsWriterShut writer.new)) }
    ensures shut { StaysShut writer.old.file (D.tells disk.old) (D.tells disk.new) }
    ensures leaves { RelatesTold (LeavesClosed writer.old.file) (D.tells disk.old).files
        (D.tells disk.new).files }
    ensures run { DiskRun (D.tells disk.old) (D.tells disk.new) }
    ensures fault { IsErrOf result MigrationFault.DiskFault
        → CountRose (D.tells disk.old).disk_faults (D.tells disk.new).disk_faults }
{
    write_plan(disk, state, plan, writer, page)?;
    writer.flush(disk, &mut page.group)?;
    Ok(())
}

/// Writes all items of a plan. What was written of the writer's file is taken back after a failure.
pub(crate) fn write_account<D: Disk>(
    disk: &mut D,
    state: &State,
    plan: &Plan,
    writer: &mut Journal,
    page: &mut Page,
) -> Result<(), MigrationFault>
    requires planned { AreItemsKnown state.now.facts plan.now }
    requires empty { page.old.payload.items ≡ [] }
    requires none { page.old.group ≡ 0 ∷ [] }
    requires room { writer.old.end + frames_len (plan_pages state.now.facts plan.now)
        ≤ MAX_JOURNAL }
    requires works { ForSome (D.tells disk.old).files (IsWriterShut writer.old) }
    ensures within { OnOk result (AreWritten state.now.facts plan.now) }
    ensures adding { OnOk result (WritesPayloads writer.old writer.new
        (plan_pages state.now.facts plan.now) (D.tells disk.old).files (D.tells disk.new).files) }
    ensures works { OnOk result (ForSome (D.tells disk.new).files (IsWriterShut writer.new)) }
    ensures shut { StaysShut writer.old.file (D.tells disk.old) (D.tells disk.new) }
    ensures leaves { RelatesTold (LeavesClosed writer.old.file) (D.tells disk.old).files
        (D.tells disk.new).files }
    ensures back { ClearsAgain writer.old.file (D.tells disk.old).files (D.tells disk.new).files
        result }
    ensures run { DiskRun (D.tells disk.old) (D.tells disk.new) }
    ensures fault { IsErrOf result MigrationFault.DiskFault
        → CountRose (D.tells disk.old).disk_faults (D.tells disk.new).disk_faults }
{
    let file = writer.file();
    match write_whole(disk, state, plan, writer, page) {
        Ok(()) => Ok(()),
        Err(fault) => Err(take_back(disk, file, fault)),
    }
}
