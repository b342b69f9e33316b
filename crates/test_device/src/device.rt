//! A store with its disk: the value keeps what a call on the one needs of the other.
ghost use Rattle.std.specs.Prelude.{◌≡◌, ◌≤◌, false, true, IfOk};
ghost use Rattle.journal_state.specs.Whole.{KnowsJudgements};
ghost use Rattle.outside.specs.declared.limits.TheConstants.{MAX_JOURNAL};
ghost use Rattle.sync_rules.specs.Allows.{is_account_kind, is_settling_kind};
ghost use Rattle.sync_rules.specs.Legal.{Allowed};
ghost use Rattle.sync_store.specs.Ready.{IsReady};

use crate::batches::{begins_with_step, is_of_account};
use crate::fault::AddFault;
use anyhow::{Result, anyhow, bail};
use outside::{Disk, MAX_JOURNAL, MemRandom};
use std::alloc::{AllocError, Global};
use std::hash::RandomState;
use std::marker::Model;
use sync_rules::laws::allows_is_allowed;
use sync_rules::{Batch, Clients};
use sync_store::{Store, StoreFault};

/// A store with its disk and its clients.
#[derive(Drop)]
pub struct Device<D: Disk, C: Clients> {
    alloc: Global,
    disk: D,
    store: Store,
    clients: C,
}

impl<D: Disk, C: Clients> Model for Device<D, C> {
    ghost use Rattle.test_device.specs.Device.{IsTestStore};

    ghost Value = { Unit {0} };

    ghost view = { λ _. tt };

    ghost invariant = { λ d. IsTestStore (C.meaning d.clients) d.store (D.tells d.disk).files };
}

impl<D: Disk + Drop, C: Clients + Drop> Device<D, C> {
    /// Begins a store on a disk that has none, and loads it.
    pub fn begin(alloc: Global, mut disk: D, clients: C) -> Result<Device<D, C>> {
        match Store::init(&mut disk) {
            Ok(()) => Device::load(alloc, disk, clients, MAX_JOURNAL),
            Err(fault) => bail!("no store was begun: {fault:?}"),
        }
    }

    /// Loads the store of a disk, of which commits may fill so many bytes.
    pub fn load(alloc: Global, mut disk: D, clients: C, limit: u64) -> Result<Device<D, C>>
        requires { limit ≤ MAX_JOURNAL }
    {
        let hasher = RandomState::new(&MemRandom(0))?;
        match Store::load(alloc, hasher, &mut disk, &clients, limit) {
            Ok(store) => Ok(Device {
                alloc,
                disk,
                store,
                clients,
            }),
            Err(fault) => Err(anyhow!("no store was loaded: {fault:?}")),
        }
    }

    /// The store.
    pub fn store(&self) -> &Store {
        &self.store
    }

    /// Whether a batch begins with no step, is none that stands in a brief account alone, and may
    /// follow the journal, where the store is not closed. It fails only for want of memory.
    pub fn allows(&self, batch: &Batch) -> Result<bool, AllocError> {
        may_add(self.alloc, &self.store, &self.clients, batch)
    }

    /// Commits a batch, where `allows` says that it may be. A closed store answers by itself.
    pub fn add(&mut self, batch: Batch) -> Result<(), AddFault> {
        add(
            self.alloc,
            &mut self.store,
            &mut self.disk,
            &self.clients,
            batch,
        )
    }

    /// Writes the journal anew in format 2, where it is of format 1.
    pub fn migrate(&mut self) -> Result<(), StoreFault> {
        self.store.migrate(&mut self.disk, &self.clients)
    }

    /// Settles the journal.
    pub fn settle(&mut self) -> Result<(), StoreFault> {
        self.store.settle(&mut self.disk, &self.clients)
    }

    /// Commits a batch as `add` does, and settles the journal.
    pub fn add_settled(&mut self, batch: Batch) -> Result<(), AddFault> {
        self.add(batch)?;
        self.settle()?;
        Ok(())
    }
}

// Commits a batch where it may be added.
fn add<D: Disk, C: Clients>(
    alloc: Global,
    store: &mut Store,
    disk: &mut D,
    clients: &C,
    batch: Batch,
) -> Result<(), AddFault>
    requires { store.old.closed ≡ false
        → IsReady (C.meaning clients.now) store.old (D.tells disk.old).files }
    ensures { store.new.closed ≡ false
        → IsReady (C.meaning clients.now) store.new (D.tells disk.new).files }
{
    if !may_add(alloc, store, clients, &batch)? {
        return Err(AddFault::NotAllowed);
    }
    store.commit(disk, clients, batch)?;
    Ok(())
}

// Whether a batch may follow the journal, begins with no step, and stands not in a brief account
// alone; of a closed store the latter two are asked.
fn may_add<C: Clients>(
    alloc: Global,
    store: &Store,
    clients: &C,
    batch: &Batch,
) -> Result<bool, AllocError>
    requires { store.now.closed ≡ false → KnowsJudgements (C.meaning clients.now) store.now.state }
    ensures allowed { IfOk result (λ yes. yes ≡ true → store.now.closed ≡ false
        → Allowed (C.meaning clients.now) store.now.state.facts batch.now) }
    ensures kind { IfOk result (λ yes. yes ≡ true → is_settling_kind batch.now ≡ false) }
    ensures plain { IfOk result (λ yes. yes ≡ true → is_account_kind batch.now ≡ false) }
{
    if begins_with_step(batch.entries()) || is_of_account(batch.entries()) {
        return Ok(false);
    }
    if store.is_closed() {
        return Ok(true);
    }
    allows_is_allowed();
    store.state().allows(alloc, clients, batch)
}
