//! The brief account written into the other file, and published.
ghost use Rattle.std.specs.Prelude.{◌≡◌, ◌-◌, ◌^◌, ◌<◌, ◌≤◌, IfOk, IsErrOf, Some, List};
ghost use Rattle.std.specs.Option.{ForSome};
ghost use Rattle.outside.specs.Faults.{CountRose};
ghost use Rattle.outside.specs.Files.{Two, File};
ghost use Rattle.outside.specs.Outside.{DiskRun};
ghost use Rattle.sync_rules.specs.declared.entries.Entry.{Entry};
ghost use Rattle.sync_rules.specs.Facts.{facts};
ghost use Rattle.sync_rules.specs.Steps.{IsSettled};
ghost use Rattle.journal_migration.specs.Migrating.{HoldsSecond, other_number};
ghost use Rattle.journal_migration.specs.Starting.{IsSettledBoth};
ghost use Rattle.journal_compaction.specs.Compacting.{CompactsJournal, IsCompacted, WeighsAccount};
ghost use Rattle.journal_compaction.specs.Compacting.{KeepsOwn, LeavesNothing};

use crate::CompactionFault;
use crate::laws::cite_laws;
use crate::page::Page;
use crate::plan::Plan;
use crate::writing::write_account;
use frame_journal::{Journal, publish};
use journal_migration::begin;
use journal_state::State;
use outside::{Disk, MAX_JOURNAL};
use std::alloc::Global;
use sync_rules::Clients;

/// Writes the brief account of a journal into the other file, with the next generation, and makes
/// it the journal: the other file is cleared and prepared, every batch is appended to it, in
/// groups, and then its header's gate is opened. The journal is settled and in format 2, and the
/// state is that of it. It answers the new journal.
///
/// At each moment the files stand for the journal or for its brief account; after `Full` and
/// `Memory` they still hold the journal as before. `Full` comes exactly where the brief account,
/// in bytes and with 10 for each step that may yet be made, would pass the limit; then no call on
/// the disk was made. It takes the memory of a second state, of a plan of the account and of one
/// group of frames.
///
/// The journal's own file is neither read nor written. Once the other file's gate is closed, and
/// before it is opened, what was written of that file is taken back after a failure: after `Memory`
/// it is as it was, or one byte long.
pub fn compact<D: Disk, C: Clients>(
    alloc: Global,
    disk: &mut D,
    journal: &Journal,
    limit: u64,
    state: &State,
    clients: &C,
) -> Result<Journal, CompactionFault>
    requires format { journal.now.format ≡ 2 }
    requires generation { journal.now.generation < 2 ^ 64 - 1 }
    requires limit { limit ≤ MAX_JOURNAL }
    requires settled { ForSome (D.tells disk.old).files IsSettledBoth }
    requires still { IsSettled (C.meaning clients.now) state.now.facts }
    ensures next { IfOk result
        (IsCompacted (C.meaning clients.now) state.now.facts journal.now) }
    ensures room { WeighsAccount (C.meaning clients.now) state.now.facts limit result }
    ensures unasked { IsErrOf result CompactionFault.Full → disk.new ≡ disk.old }
    ensures compacts { (j : List (List Entry)) (two : Two File)
        → (D.tells disk.old).files ≡ Some two → facts j ≡ state.now.facts
        → HoldsSecond (C.meaning clients.now) journal.now j two
        → CompactsJournal (C.meaning clients.now) journal.now j (D.tells disk.old) (D.tells disk.new)
        result }
    ensures own { KeepsOwn journal.now.file (D.tells disk.old).files (D.tells disk.new).files result }
    ensures back { LeavesNothing (other_number journal.now.file) (D.tells disk.old).files
        (D.tells disk.new).files result }
    ensures run { DiskRun (D.tells disk.old) (D.tells disk.new) }
    ensures fault { IsErrOf result CompactionFault.DiskFault
        → CountRose (D.tells disk.old).disk_faults (D.tells disk.new).disk_faults }
{
    cite_laws();
    let file = journal.file();
    let generation = journal.generation();
    let told = state.account(alloc, clients)?;
    let plan = Plan::of(alloc, state, told.as_slice())?;
    if plan.len(state) > limit {
        return Err(CompactionFault::Full);
    }
    let mut page = Page::new(alloc)?;
    let mut writer = begin(disk, 1 - file, generation + 1)?;
    write_account(disk, state, &plan, &mut writer, &mut page)?;
    publish(disk, writer.file())?;
    Ok(writer)
}
