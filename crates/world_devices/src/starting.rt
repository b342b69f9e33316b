//! A device that starts: its store is loaded and settled, and a node stands over it.
ghost use Rattle.std.specs.Prelude.{◌≡◌, ℕ, [], IfErr, IfOk, IsErrOf, OnOk};
ghost use Rattle.client_basic.specs.Bodies.{bundle_meaning};
ghost use Rattle.outside.specs.HostTold.{host_told};
ghost use Rattle.outside.specs.declared.limits.TheConstants.{MAX_JOURNAL};
ghost use Rattle.sync_store.specs.Ready.{IsReady};
ghost use Rattle.world_devices.specs.Devices.{IsAnew, IsStarted, LeavesDisk, links_made};
ghost use Rattle.world_devices.specs.Brought.{IsSilent};
ghost use Rattle.world_devices.specs.Cited.{DeviceLaws};
ghost use Rattle.frame_journal.specs.Appends.{BreaksAppends};
ghost use Rattle.world_devices.specs.Doing.{Settles, SettlesFrom, StartCut, load_calls};
ghost use Rattle.world_devices.specs.Keeping.{AreLinksQuiet};
ghost use Rattle.world_devices.specs.Running.{HoldsAfterCrash};
ghost use Rattle.world_devices.specs.declared.starting.StartFault.TheVariants as start_fault;
ghost use Rattle.sync_rules.specs.Facts.{Journal};

use client_basic::Bundle;
use entry_codec::laws::standing_is_legal;
use outside::{Host, LINKS, MAX_JOURNAL, MemDisk, MemHost};
use record_grammar::{fronts_have_fronts, records_join, streams_go_on};
use std::alloc::{AllocError, Global};
use std::hash::RandomState;
use sync_store::{LoadFault, Store, StoreFault};

/// Why no node was started.
#[derive(Clone, Copy, Debug, PartialEq, Eq)]
pub(crate) enum StartFault {
    /// No memory was found, or the files stand for no journal.
    Memory,
    /// A call on the disk failed.
    DiskFault,
}

impl From<AllocError> for StartFault {
    ghost from_gives = { λ _ e. e ≡ start_fault.Memory };

    fn from(_: AllocError) -> StartFault {
        StartFault::Memory
    }
}

/// A host without links over a fresh disk with an empty store.
pub(crate) fn begin(alloc: Global) -> Result<MemHost, StartFault>
    ensures links { IfOk result (λ host. links_made host ≡ 0) }
    ensures holds { IfOk result (HoldsAfterCrash []) }
    ensures silent { IfOk result IsSilent }
{
    let Ok(disk) = MemDisk::new(alloc, Vec::new(alloc), Vec::new(alloc)) else {
        return Err(StartFault::Memory);
    };
    let Ok(mut host) = MemHost::new(alloc, disk) else {
        return Err(StartFault::Memory);
    };
    match Store::init(&mut host) {
        Ok(()) => Ok(host),
        Err(_) => Err(StartFault::DiskFault),
    }
}

/// Dials all links of a host that has none, sets its clock, and loads its store.
pub(crate) fn open_store(
    alloc: Global,
    hasher: RandomState,
    host: &mut MemHost,
    clock: u64,
) -> Result<Store, StartFault>
    requires links { links_made host.old ≡ 0 }
    requires silent { IsSilent host.old }
    ensures started { IfOk result (λ store. IsStarted store host.new) }
    ensures anew { OnOk result (IsAnew clock host.new) }
    ensures settling { Settles load_calls host.old host.new }
    ensures cut { IsErrOf result StartFault.DiskFault → StartCut host.old host.new }
    ensures loads { (j : Journal) → HoldsAfterCrash j host.old → OnOk result (SettlesFrom j host.new) }
{
    dial_all(host)?;
    host.set_clock(clock)?;
    load(alloc, hasher, host)
}

// Dials all links of a host that has none: sessions take them in order.
fn dial_all(host: &mut MemHost) -> Result<(), StartFault>
    requires { links_made host.old ≡ 0 }
    ensures dialled { OnOk result (links_made host.new ≡ LINKS) }
    ensures quiet { OnOk result (AreLinksQuiet (host_told host.new)) }
    ensures scripts { host.new.scripts ≡ host.old.scripts }
    ensures disk { LeavesDisk host.old host.new }
    ensures starved { IfErr result (λ e. e ≡ StartFault.Memory) }
{
    'links: for _link in 0..LINKS {
        match host.dial("tcp:world") {
            Ok(_) => {}
            Err(_) => return Err(StartFault::Memory),
        }
    }
    Ok(())
}

// Loads the store of a host and settles it.
fn load(alloc: Global, hasher: RandomState, host: &mut MemHost) -> Result<Store, StartFault>
    ensures started { IfOk result (λ store. IsStarted store host.new) }
    ensures links { (host_told host.new).links ≡ (host_told host.old).links }
    ensures settling { Settles load_calls host.old host.new }
    ensures cut { IsErrOf result StartFault.DiskFault → StartCut host.old host.new }
    ensures loads { (j : Journal) → HoldsAfterCrash j host.old → OnOk result (SettlesFrom j host.new) }
{
    match Store::load(alloc, hasher, host, &Bundle::new(), MAX_JOURNAL) {
        Ok(store) => settle(store, host),
        Err(LoadFault::DiskFault) => Err(StartFault::DiskFault),
        Err(_) => Err(StartFault::Memory),
    }
}

// Settles a store that was loaded.
fn settle(store: Store, host: &mut MemHost) -> Result<Store, StartFault>
    requires ready { IsReady bundle_meaning store (host_told host.old).files }
    requires limit { store.limit ≡ MAX_JOURNAL }
    ensures started { IfOk result (λ store. IsStarted store host.new) }
    ensures links { (host_told host.new).links ≡ (host_told host.old).links }
    ensures settling { Settles (λ j. 0) host.old host.new }
    ensures cut { IsErrOf result StartFault.DiskFault → BreaksAppends store.file store.end
        (host_told host.old) (host_told host.new) }
    ensures settles { (j : Journal) → HoldsAfterCrash j host.old → OnOk result (SettlesFrom j host.new) }
{
    let mut store = store;
    match store.settle(host, &Bundle::new()) {
        Ok(()) => Ok(store),
        Err(StoreFault::DiskFault) => Err(StartFault::DiskFault),
        Err(_) => Err(StartFault::Memory),
    }
}

/// The laws of the crates below that proofs of this crate rest on.
pub(crate) fn cite_laws()
    ensures { DeviceLaws }
{
    standing_is_legal();
    fronts_have_fronts();
    streams_go_on();
    records_join();
}
