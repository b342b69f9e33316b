//! A session that begins on a store.
ghost use Rattle.std.specs.Prelude.{◌≡◌, ◌<◌, ◌≤◌, false, IfOk, IsErrOf};
ghost use Rattle.outside.specs.Faults.{CountRose};
ghost use Rattle.sync_rules.specs.declared.limits.TheConstants.{MAX_SESSIONS};
ghost use Rattle.sync_rules.specs.Steps.{IsSettled};
ghost use Rattle.sync_store.specs.Groups.{IsGathering};
ghost use Rattle.sync_store.specs.Store.{IsStore};
ghost use Rattle.mailbox_core.specs.Steps.{HasBegunSession, IsOpenFor};

use outside::Disk;
use std::alloc::Global;
use sync_rules::growth::steps;
use sync_rules::{Batch, Clients, Entry, Mode, Session};
use sync_store::laws::images_stand;
use sync_store::{Store, StoreFault};

/// Begins a batch session of this latency with a contact, and answers it; its frame waits.
pub(crate) fn begin<D: Disk, C: Clients>(
    alloc: Global,
    store: &mut Store,
    disk: &mut D,
    clients: &C,
    contact: u8,
    latency: u32,
) -> Result<Session, StoreFault>
    requires gathering { IsGathering (C.meaning clients.now) store.old (D.tells disk.old).files }
    requires settled { IsSettled (C.meaning clients.now) store.old.state.facts }
    requires known { contact < store.old.state.facts.contacts }
    requires few { store.old.state.facts.begun < MAX_SESSIONS }
    requires latency { 1 ≤ latency }
    ensures begun { HasBegunSession (C.meaning clients.now) contact latency store.old store.new result
        (D.tells disk.old) (D.tells disk.new) }
    ensures opened { IfOk result (λ session. IsOpenFor (C.meaning clients.now) session store.new
        (D.tells disk.new)) }
    ensures gathering { store.new.closed ≡ false
        → IsGathering (C.meaning clients.now) store.new (D.tells disk.new).files }
    ensures is_store { IsStore store.new }
    ensures fault { IsErrOf result StoreFault.DiskFault
        → CountRose (D.tells disk.old).disk_faults (D.tells disk.new).disk_faults }
{
    images_stand();
    steps();
    let number = store.sessions();
    let session = Session {
        number,
        contact,
        mode: Mode::Batch,
        latency,
        nonce: None,
    };
    let batch = Batch::single(alloc, Entry::Session(session))?;
    store.gather_known(disk, clients, batch, None)?;
    match store.state().session(number) {
        Some(begun) => Ok(begun),
        None => unreachable!(),
    }
}
