// A batch that is added to a store: before it the journal is migrated, where it is of format 1, and
// settled. The store's answers are outcomes here; a store that is ready is not closed.
ghost use Rattle.std.specs.Prelude.{◌≡◌, List, Some, false, true, IsErrOf, OnOk};
ghost use Rattle.std.specs.List.{list_all};
ghost use Rattle.outside.specs.declared.limits.TheConstants.{MAX_JOURNAL};
ghost use Rattle.outside.specs.Files.{Two, File};
ghost use Rattle.outside.specs.Outside.{DiskRun};
ghost use Rattle.sync_rules.specs.declared.entries.Entry.{Entry};
ghost use Rattle.sync_rules.specs.Allows.{is_account_kind, is_settling_kind};
ghost use Rattle.sync_rules.specs.Legal.{Allowed};
ghost use Rattle.sync_rules.specs.Steps.{IsSettled};
ghost use Rattle.session_core.specs.Known.{IsOfAll};
ghost use Rattle.sync_store.specs.Fitting.{FitsFiles};
ghost use Rattle.sync_store.specs.Ready.{IsReady};
ghost use Rattle.sync_words.specs.Outcomes.{came_to};
ghost use Rattle.store_commands.specs.Commit.{AddsAs, ExtendsBy, ExtendsTold, MayFollow};
ghost use Rattle.store_commands.specs.Commit.{MigratesAs, SettlesAnew, SettlesAs, StoreStaysReady};
ghost use Rattle.store_commands.specs.Load.{MayExtend};
ghost use Rattle.store_commands.specs.Serving.{IsReadyToServe, IsServed, LeavesSessionsBy};
ghost use Rattle.store_commands.specs.Serving.{KeepsSettled, LeavesSessions, ServesOn, StaysSettled};
ghost use Rattle.store_commands.specs.Serving.{begins_none};

use outside::Disk;
use sync_ids::MessageId;
use sync_rules::{Batch, Clients};
use sync_store::laws::images_stand;
use sync_store::{Store, StoreFault};
use sync_words::Outcome;

/// Where a command settles the journal: before its own batch, or behind it too.
#[derive(Clone, Copy, Debug, PartialEq, Eq)]
pub enum Settling {
    /// Before the batch alone.
    Before,
    /// Before the batch and behind it.
    BeforeAndAfter,
}

/// Migrates the journal and settles it, commits the batch, and settles again where that is asked
/// for. The id is that of the one message that the batch brings, where the caller has it.
pub fn extend<D: Disk, C: Clients>(
    store: &mut Store,
    batch: Batch,
    id: Option<MessageId>,
    settling: Settling,
    disk: &mut D,
    clients: &C,
) -> Result<(), Outcome>
    requires ready { MayExtend (C.meaning clients.now) store.old (D.tells disk.old).files }
    requires follows { MayFollow (C.meaning clients.now) store.old.state.facts batch }
    requires kind { is_settling_kind batch ≡ false }
    requires plain { is_account_kind batch ≡ false }
    requires named { IsOfAll id batch }
    ensures run { DiskRun (D.tells disk.old) (D.tells disk.new) }
    ensures by { ExtendsBy (D.tells disk.old) (D.tells disk.new) result }
    ensures told { (two : Two File) → (D.tells disk.old).files ≡ Some two → (j : List (List Entry))
        → FitsFiles (C.meaning clients.now) store.old j two
        → ExtendsTold (C.meaning clients.now) settling j batch two (D.tells disk.old)
        (D.tells disk.new) result }
    ensures serves { IsServed (C.meaning clients.now) store.old (D.tells disk.old)
        → KeepsSettled settling batch
        → ServesOn (C.meaning clients.now) store.new (D.tells disk.new) (came_to result) }
    ensures sessions { list_all begins_none batch ≡ true
        → LeavesSessionsBy store.old store.new (came_to result) }
{
    migrate_and_settle(store, disk, clients)?;
    match settling {
        Settling::Before => commit(store, batch, id, disk, clients),
        Settling::BeforeAndAfter => commit_settled(store, batch, id, disk, clients),
    }
}

/// Writes the journal anew in format 2 where it is of format 1, and settles it. Beside `Ok` its
/// outcomes are `Memory`, `DiskFault`, and `Full` exactly where a journal of format 1 has the last
/// generation; then nothing is done. After `Ok` a store that may be filled up to the greatest length
/// of a journal is served.
pub fn migrate_and_settle<D: Disk, C: Clients>(
    store: &mut Store,
    disk: &mut D,
    clients: &C,
) -> Result<(), Outcome>
    requires ready { IsReady (C.meaning clients.now) store.old (D.tells disk.old).files }
    ensures run { DiskRun (D.tells disk.old) (D.tells disk.new) }
    ensures by { ExtendsBy (D.tells disk.old) (D.tells disk.new) result }
    ensures settled { SettlesAnew (C.meaning clients.now) store.old store.new (D.tells disk.old)
        (D.tells disk.new) result }
    ensures untouched { IsErrOf result Outcome.Full → disk.new ≡ disk.old }
    ensures stays { StoreStaysReady (C.meaning clients.now) store.new (D.tells disk.new).files result }
    ensures ready { OnOk result (IsReady (C.meaning clients.now) store.new
        (D.tells disk.new).files) }
    ensures serves { store.old.limit ≡ MAX_JOURNAL
        → OnOk result (IsServed (C.meaning clients.now) store.new (D.tells disk.new)) }
    ensures sessions { LeavesSessions store.old store.new }
{
    migrate(store, disk, clients)?;
    settle_loaded(store, disk, clients)
}

// Writes the journal anew in format 2 where it is of format 1.
fn migrate<D: Disk, C: Clients>(store: &mut Store, disk: &mut D, clients: &C) -> Result<(), Outcome>
    requires ready { IsReady (C.meaning clients.now) store.old (D.tells disk.old).files }
    ensures run { DiskRun (D.tells disk.old) (D.tells disk.new) }
    ensures by { ExtendsBy (D.tells disk.old) (D.tells disk.new) result }
    ensures migrated { MigratesAs (C.meaning clients.now) store.old store.new (D.tells disk.old)
        (D.tells disk.new) result }
    ensures untouched { IsErrOf result Outcome.Full → disk.new ≡ disk.old }
    ensures stays { StoreStaysReady (C.meaning clients.now) store.new (D.tells disk.new).files result }
    ensures ready { OnOk result (IsReady (C.meaning clients.now) store.new
        (D.tells disk.new).files) }
{
    match store.migrate(disk, clients) {
        Ok(()) => Ok(()),
        Err(StoreFault::Full) => Err(Outcome::Full),
        Err(StoreFault::Memory) => Err(Outcome::Memory),
        Err(StoreFault::DiskFault) => Err(Outcome::DiskFault),
        Err(StoreFault::Closed) => unreachable!(),
    }
}

/// Settles the journal. `Memory` and `DiskFault` are its only outcomes beside `Ok`. So a store that
/// was served until memory was wanting is served again.
pub fn settle_loaded<D: Disk, C: Clients>(
    store: &mut Store,
    disk: &mut D,
    clients: &C,
) -> Result<(), Outcome>
    requires ready { IsReady (C.meaning clients.now) store.old (D.tells disk.old).files }
    ensures run { DiskRun (D.tells disk.old) (D.tells disk.new) }
    ensures by { ExtendsBy (D.tells disk.old) (D.tells disk.new) result }
    ensures settled { SettlesAs (C.meaning clients.now) store.old store.new (D.tells disk.old)
        (D.tells disk.new) result }
    ensures stays { StoreStaysReady (C.meaning clients.now) store.new (D.tells disk.new).files result }
    ensures ready { OnOk result (IsReady (C.meaning clients.now) store.new
        (D.tells disk.new).files) }
    ensures serves { IsReadyToServe (C.meaning clients.now) store.old (D.tells disk.old)
        → ServesOn (C.meaning clients.now) store.new (D.tells disk.new) (came_to result) }
    ensures sessions { LeavesSessions store.old store.new }
{
    match store.settle(disk, clients) {
        Ok(()) => Ok(()),
        Err(StoreFault::Memory) => Err(Outcome::Memory),
        Err(StoreFault::DiskFault) => Err(Outcome::DiskFault),
        Err(StoreFault::Full | StoreFault::Closed) => unreachable!(),
    }
}

// Commits the batch.
fn commit<D: Disk, C: Clients>(
    store: &mut Store,
    batch: Batch,
    id: Option<MessageId>,
    disk: &mut D,
    clients: &C,
) -> Result<(), Outcome>
    requires ready { IsReady (C.meaning clients.now) store.old (D.tells disk.old).files }
    requires allowed { Allowed (C.meaning clients.now) store.old.state.facts batch }
    requires kind { is_settling_kind batch ≡ false }
    requires plain { is_account_kind batch ≡ false }
    requires named { IsOfAll id batch }
    ensures run { DiskRun (D.tells disk.old) (D.tells disk.new) }
    ensures by { ExtendsBy (D.tells disk.old) (D.tells disk.new) result }
    ensures added { AddsAs (C.meaning clients.now) Settling.Before store.old store.new batch
        (D.tells disk.old) (D.tells disk.new) result }
    ensures stays { StoreStaysReady (C.meaning clients.now) store.new (D.tells disk.new).files
        result }
    ensures settled { IsSettled (C.meaning clients.now) store.old.state.facts
        → KeepsSettled Settling.Before batch → StaysSettled (C.meaning clients.now) store.new result }
    ensures sessions { list_all begins_none batch ≡ true
        → LeavesSessionsBy store.old store.new (came_to result) }
{
    images_stand();
    // By which a group leaves a settled journal settled.
    store.state().show_sound();
    match store.commit_known(disk, clients, batch, id) {
        Ok(()) => Ok(()),
        Err(StoreFault::Full) => Err(Outcome::Full),
        Err(StoreFault::Memory) => Err(Outcome::Memory),
        Err(StoreFault::DiskFault) => Err(Outcome::DiskFault),
        Err(StoreFault::Closed) => unreachable!(),
    }
}

// Commits the batch and settles behind it.
fn commit_settled<D: Disk, C: Clients>(
    store: &mut Store,
    batch: Batch,
    id: Option<MessageId>,
    disk: &mut D,
    clients: &C,
) -> Result<(), Outcome>
    requires ready { IsReady (C.meaning clients.now) store.old (D.tells disk.old).files }
    requires allowed { Allowed (C.meaning clients.now) store.old.state.facts batch }
    requires kind { is_settling_kind batch ≡ false }
    requires plain { is_account_kind batch ≡ false }
    requires named { IsOfAll id batch }
    ensures run { DiskRun (D.tells disk.old) (D.tells disk.new) }
    ensures by { ExtendsBy (D.tells disk.old) (D.tells disk.new) result }
    ensures added { AddsAs (C.meaning clients.now) Settling.BeforeAndAfter store.old store.new
        batch (D.tells disk.old) (D.tells disk.new) result }
    ensures stays { StoreStaysReady (C.meaning clients.now) store.new (D.tells disk.new).files
        result }
    ensures settled { IsSettled (C.meaning clients.now) store.old.state.facts
        → KeepsSettled Settling.BeforeAndAfter batch → StaysSettled (C.meaning clients.now) store.new result }
    ensures sessions { list_all begins_none batch ≡ true
        → LeavesSessionsBy store.old store.new (came_to result) }
{
    match store.extend_known(disk, clients, batch, id) {
        Ok(()) => Ok(()),
        Err(StoreFault::Full) => Err(Outcome::Full),
        Err(StoreFault::Memory) => Err(Outcome::Memory),
        Err(StoreFault::DiskFault) => Err(Outcome::DiskFault),
        Err(StoreFault::Closed) => unreachable!(),
    }
}
