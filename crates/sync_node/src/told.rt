//! Batches committed, and the journal settled: each call on the store, with what it leaves.
ghost use Rattle.std.specs.Prelude.{◌≡◌, [], false, IsErrOf, IfErr, OnOk, Some};
ghost use Rattle.outside.specs.Files.{Two, File};
ghost use Rattle.session_core.specs.Known.{IsOfAll};
ghost use Rattle.sync_rules.specs.Allows.{is_account_kind, is_settling_kind};
ghost use Rattle.sync_rules.specs.Legal.{Allowed};
ghost use Rattle.sync_rules.specs.Facts.{Journal};
ghost use Rattle.sync_store.specs.Fitting.{FitsFiles};
ghost use Rattle.sync_store.specs.Groups.{IsGathering};
ghost use Rattle.sync_store.specs.Moments.{LeadsTo};
ghost use Rattle.sync_store.specs.Ready.{IsReady};
ghost use Rattle.sync_store.specs.Store.{IsStore};
ghost use Rattle.sync_course.specs.Free.{IsPlain};
ghost use Rattle.sync_node.specs.Adding.{AddsAtMost};
ghost use Rattle.sync_node.specs.Batches.{AddStops, Added, CommitStops, Committed, Flushed};
ghost use Rattle.sync_node.specs.Batches.{IsUndone, IsUndoneBy, JoinHalts, Joined, SettleHalts};
ghost use Rattle.sync_node.specs.Batches.{Settled};
ghost use Rattle.sync_node.specs.Cited.{NodeCallLaws};
ghost use Rattle.sync_node.specs.Did.{UnderwayBreaks};

use crate::fault::Fault;
use outside::Host;
use record_grammar::{endings_are_of_rests, rests_give_nothing};
use record_stream::{readings_follow, readings_widen};
use sync_ids::MessageId;
use sync_rules::{Batch, Clients};
use sync_store::laws::images_stand;
use sync_store::{Store, StoreFault};

// The laws of the crates below that proofs of this crate rest on.
pub(crate) fn cite_laws()
    ensures { NodeCallLaws }
{
    readings_widen();
    readings_follow();
    images_stand();
    endings_are_of_rests();
    rests_give_nothing();
}

// What every store keeps.
pub(crate) fn cite_store(store: &Store)
    ensures { IsStore store.now }
{
    let _closed = store.is_closed();
}

/// Commits a batch, one of a run, with the id of the one message that it brings where the caller
/// has it. `went`: the batch stands behind the journal, and nothing else was done. `stopped`: for
/// want of memory or of room nothing was done; where a call of the disk failed, a crash may leave
/// the batch or not, and what reads now is one of the two.
pub(crate) fn commit<H: Host, C: Clients>(
    store: &mut Store,
    host: &mut H,
    clients: &C,
    batch: Batch,
    id: Option<MessageId>,
) -> Result<(), Fault>
    requires ready { IsReady (C.meaning clients.now) store.old (H.tells host.old).files }
    requires allowed { Allowed (C.meaning clients.now) store.old.state.facts batch }
    requires kind { is_settling_kind batch ≡ false }
    requires plain { is_account_kind batch ≡ false }
    requires named { IsOfAll id batch }
    ensures went { OnOk result (Committed (C.meaning clients.now) batch store.old store.new
        (H.tells host.old) (H.tells host.new)) }
    ensures stopped { IfErr result (CommitStops (C.meaning clients.now) batch store.old store.new
        (H.tells host.old) (H.tells host.new)) }
    ensures undone { IfErr result (IsUndoneBy store.old store.new host.old host.new) }
    ensures numbers { IsStore store.new }
{
    match store.commit_known(host, clients, batch, id) {
        Ok(()) => Ok(()),
        Err(StoreFault::Memory) => Err(Fault::Memory),
        Err(StoreFault::DiskFault) => Err(Fault::DiskFault),
        Err(StoreFault::Full) => Err(Fault::Full),
        Err(StoreFault::Closed) => unreachable!(),
    }
}

/// Gathers a batch, one of a run, with the id of the one message that it brings where the caller has
/// it: it is added by `flush`, or before that where a group is full. `went`: the batch waits, or was
/// added. `halted`: for want of memory or of room nothing was gathered; or a call of the disk failed
/// in adding what waited before.
pub(crate) fn join<H: Host, C: Clients>(
    store: &mut Store,
    host: &mut H,
    clients: &C,
    batch: Batch,
    id: Option<MessageId>,
) -> Result<(), Fault>
    requires waits { IsGathering (C.meaning clients.now) store.old (H.tells host.old).files }
    requires allowed { Allowed (C.meaning clients.now) store.old.state.facts batch }
    requires kind { is_settling_kind batch ≡ false }
    requires plain { is_account_kind batch ≡ false }
    requires named { IsOfAll id batch }
    ensures went { OnOk result (Joined (C.meaning clients.now) batch store.old store.new
        (H.tells host.old) (H.tells host.new)) }
    ensures halted { IfErr result (JoinHalts (C.meaning clients.now) batch store.old store.new
        (H.tells host.old) (H.tells host.new)) }
{
    cite_laws();
    match store.gather_known(host, clients, batch, id) {
        Ok(()) => Ok(()),
        Err(StoreFault::Memory) => Err(Fault::Memory),
        Err(StoreFault::DiskFault) => Err(Fault::DiskFault),
        Err(StoreFault::Full) => Err(Fault::Full),
        Err(StoreFault::Closed) => unreachable!(),
    }
}

/// Settles the journal behind what waits. `went`: settling batches wait too, or were added, and
/// nothing is left to be settled. `halted`: for want of memory some of them do; or a call of the disk
/// failed in adding them. It is never Full, since the journal keeps room for its settling.
pub(crate) fn settle<H: Host, C: Clients>(
    store: &mut Store,
    host: &mut H,
    clients: &C,
) -> Result<(), Fault>
    requires waits { IsGathering (C.meaning clients.now) store.old (H.tells host.old).files }
    ensures went { OnOk result (Settled (C.meaning clients.now) store.old store.new
        (H.tells host.old) (H.tells host.new)) }
    ensures halted { IfErr result (SettleHalts (C.meaning clients.now) store.old store.new
        (H.tells host.old) (H.tells host.new)) }
{
    cite_laws();
    match store.gather_settling(host, clients) {
        Ok(()) => Ok(()),
        Err(StoreFault::Memory) => Err(Fault::Memory),
        Err(StoreFault::DiskFault) => Err(Fault::DiskFault),
        Err(StoreFault::Full | StoreFault::Closed) => unreachable!(),
    }
}

/// Adds what waits to the journal. `went`: all of it is durable, and the store is ready. `broke`: a
/// call of the disk failed.
pub(crate) fn flush<H: Host, C: Clients>(
    store: &mut Store,
    host: &mut H,
    clients: &C,
) -> Result<(), Fault>
    requires waits { IsGathering (C.meaning clients.now) store.old (H.tells host.old).files }
    ensures went { OnOk result (Flushed (C.meaning clients.now) store.old store.new
        (H.tells host.old) (H.tells host.new)) }
    ensures broke { IfErr result (λ e. (e ≡ Fault.DiskFault) × UnderwayBreaks
        (C.meaning clients.now) [] store.old store.new (H.tells host.old) (H.tells host.new)) }
{
    cite_laws();
    match store.flush(host, clients) {
        Ok(()) => Ok(()),
        Err(_) => Err(Fault::DiskFault),
    }
}

/// Commits a batch that adds a contact, a group, a level or a message, and settles. Nothing is
/// sent. `went`: the batch stands behind the journal and settling behind it, and nothing is left to
/// be settled. `stopped`: for want of memory nothing was done, or some settling is left; for want
/// of room nothing was done; where a call of the disk failed, a crash may leave each front of what
/// was to be committed. `leads`: at each moment the files stand for such a journal.
pub(crate) fn add_settled<H: Host, C: Clients>(
    store: &mut Store,
    host: &mut H,
    clients: &C,
    batch: Batch,
) -> Result<(), Fault>
    requires ready { IsReady (C.meaning clients.now) store.old (H.tells host.old).files }
    requires allowed { Allowed (C.meaning clients.now) store.old.state.facts batch }
    requires plain { IsPlain batch }
    ensures went { OnOk result (Added (C.meaning clients.now) batch store.old store.new
        (H.tells host.old) (H.tells host.new)) }
    ensures stopped { IfErr result (AddStops (C.meaning clients.now) batch store.old store.new
        (H.tells host.old) (H.tells host.new)) }
    ensures leads { (two : Two File) → (H.tells host.old).files ≡ Some two → (j : Journal)
        → FitsFiles (C.meaning clients.now) store.old j two → LeadsTo (C.meaning clients.now)
        (AddsAtMost (C.meaning clients.now) j batch) (AddsAtMost (C.meaning clients.now) j batch)
        store.new (H.tells host.old) (H.tells host.new) }
    ensures undone { IsErrOf result Fault.Full → IsUndone store.old store.new host.old host.new }
{
    match store.extend(host, clients, batch) {
        Ok(()) => Ok(()),
        Err(StoreFault::Memory) => Err(Fault::Memory),
        Err(StoreFault::DiskFault) => Err(Fault::DiskFault),
        Err(StoreFault::Full) => Err(Fault::Full),
        Err(StoreFault::Closed) => unreachable!(),
    }
}
