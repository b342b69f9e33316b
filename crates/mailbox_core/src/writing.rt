//! A file that is written from a store.
ghost use Rattle.std.specs.Prelude.{◌≡◌, ◌∷◌, ◌<◌, ◌≤◌, [], Err, false, true, IfOk, IsErrOf, OnOk};
ghost use Rattle.outside.specs.Faults.{CountRose};
ghost use Rattle.record_grammar.specs.Spelling.{spelling};
ghost use Rattle.sync_ids.specs.declared.records.Record.TheVariants as record_kind;
ghost use Rattle.sync_rules.specs.declared.limits.TheConstants.{MAX_SESSIONS};
ghost use Rattle.sync_rules.specs.Steps.{IsSettled};
ghost use Rattle.sync_store.specs.Groups.{IsGathering};
ghost use Rattle.sync_store.specs.Ready.{IsReady};
ghost use Rattle.sync_store.specs.Store.{IsStore};
ghost use Rattle.mailbox_core.specs.Sending.{HasWrittenBox};
ghost use Rattle.mailbox_core.specs.Steps.{HasAddedBox, HasPut, HasPutAll, HasPutBox, IsOpenFor};

use crate::steps::begin;
use output_spelling::{spell_out, spell_versions};
use outside::Disk;
use std::alloc::Global;
use sync_rules::growth::steps;
use sync_rules::{Batch, Clients, Entry, Session};
use sync_store::laws::images_stand;
use sync_store::{Store, StoreFault};

/// Writes a file for a contact from a settled store: a batch session of this latency begins, and
/// what is due on it at this time, in milliseconds, is committed until nothing is due or so many
/// outputs were made. All of it is added to the journal in groups, as few as the frames take. Then it
/// answers their number, and appends the bytes of all that the session sends: its VERSIONS, and a
/// record for each output. `Closed` comes exactly where an earlier call answered
/// `DiskFault`, and then nothing is done. `Full` comes exactly where the session, or the next
/// output, finds no room: the journal, the frame and the room that settling may then need pass the
/// limit. After `Full` and `Memory` the store is extended by what was committed before; after
/// `DiskFault` it is closed. After every fault the bytes are as before.
pub fn write_box<D: Disk, C: Clients>(
    alloc: Global,
    store: &mut Store,
    disk: &mut D,
    clients: &C,
    contact: u8,
    latency: u32,
    now: u64,
    count: u32,
    to: &mut Vec<u8>,
) -> Result<u32, StoreFault>
    requires ready { store.old.closed ≡ false
        → IsReady (C.meaning clients.now) store.old (D.tells disk.old).files }
    requires settled { IsSettled (C.meaning clients.now) store.old.state.facts }
    requires known { contact < store.old.state.facts.contacts }
    requires few { store.old.state.facts.begun < MAX_SESSIONS }
    requires latency { 1 ≤ latency }
    ensures written { store.old.closed ≡ false → HasWrittenBox (C.meaning clients.now) contact
        latency now count store.old store.new to.old.items to.new.items result
        (D.tells disk.old) (D.tells disk.new) }
    ensures closed { store.old.closed ≡ true → (result ≡ Err StoreFault.Closed)
        × (store.new ≡ store.old) × (disk.new ≡ disk.old) × (to.new.items ≡ to.old.items) }
    ensures ready { store.new.closed ≡ false
        → IsReady (C.meaning clients.now) store.new (D.tells disk.new).files }
    ensures is_store { IsStore store.new }
    ensures fault { IsErrOf result StoreFault.DiskFault
        → CountRose (D.tells disk.old).disk_faults (D.tells disk.new).disk_faults }
{
    if store.is_closed() {
        return Err(StoreFault::Closed);
    }
    images_stand();
    let mut bytes = spell_versions(alloc)?;
    let made = put_added(
        alloc, store, disk, clients, contact, latency, now, count, &mut bytes,
    )?;
    to.extend_from_slice(bytes.as_slice())?;
    Ok(made)
}

// Begins a session, and commits what is due on it, behind the bytes of its VERSIONS. Its batches are
// added to the journal before it answers, so that no byte of theirs goes out before them.
fn put_added<D: Disk, C: Clients>(
    alloc: Global,
    store: &mut Store,
    disk: &mut D,
    clients: &C,
    contact: u8,
    latency: u32,
    now: u64,
    count: u32,
    to: &mut Vec<u8>,
) -> Result<u32, StoreFault>
    requires ready { IsReady (C.meaning clients.now) store.old (D.tells disk.old).files }
    requires is_store { IsStore store.old }
    requires settled { IsSettled (C.meaning clients.now) store.old.state.facts }
    requires known { contact < store.old.state.facts.contacts }
    requires few { store.old.state.facts.begun < MAX_SESSIONS }
    requires latency { 1 ≤ latency }
    requires versions { to.old.items ≡ spelling (record_kind.Versions (0 ∷ [])) }
    ensures put { HasAddedBox (C.meaning clients.now) contact latency now count store.old store.new
        to.new.items result (D.tells disk.old) (D.tells disk.new) }
    ensures ready { store.new.closed ≡ false
        → IsReady (C.meaning clients.now) store.new (D.tells disk.new).files }
    ensures is_store { IsStore store.new }
    ensures fault { IsErrOf result StoreFault.DiskFault
        → CountRose (D.tells disk.old).disk_faults (D.tells disk.new).disk_faults }
{
    images_stand();
    let made = put_box(
        alloc, store, disk, clients, contact, latency, now, count, to,
    );
    if store.is_closed() {
        return made;
    }
    store.flush(disk, clients)?;
    made
}

// Begins a session, and gathers what is due on it, behind the bytes of its VERSIONS. What was
// gathered waits, whatever the answer is.
fn put_box<D: Disk, C: Clients>(
    alloc: Global,
    store: &mut Store,
    disk: &mut D,
    clients: &C,
    contact: u8,
    latency: u32,
    now: u64,
    count: u32,
    to: &mut Vec<u8>,
) -> Result<u32, StoreFault>
    requires gathering { IsGathering (C.meaning clients.now) store.old (D.tells disk.old).files }
    requires settled { IsSettled (C.meaning clients.now) store.old.state.facts }
    requires known { contact < store.old.state.facts.contacts }
    requires few { store.old.state.facts.begun < MAX_SESSIONS }
    requires latency { 1 ≤ latency }
    requires versions { to.old.items ≡ spelling (record_kind.Versions (0 ∷ [])) }
    ensures put { HasPutBox (C.meaning clients.now) contact latency now count store.old store.new
        to.new.items result (D.tells disk.old) (D.tells disk.new) }
    ensures gathering { store.new.closed ≡ false
        → IsGathering (C.meaning clients.now) store.new (D.tells disk.new).files }
    ensures is_store { IsStore store.new }
    ensures fault { IsErrOf result StoreFault.DiskFault
        → CountRose (D.tells disk.old).disk_faults (D.tells disk.new).disk_faults }
{
    let session = begin(alloc, store, disk, clients, contact, latency)?;
    put_all(alloc, store, disk, clients, &session, now, count, to)
}

// Gathers what is due on a session, at most so many outputs, and adds their bytes.
fn put_all<D: Disk, C: Clients>(
    alloc: Global,
    store: &mut Store,
    disk: &mut D,
    clients: &C,
    session: &Session,
    now: u64,
    count: u32,
    to: &mut Vec<u8>,
) -> Result<u32, StoreFault>
    requires able { IsOpenFor (C.meaning clients.now) session.now store.old (D.tells disk.old) }
    ensures put { HasPutAll (C.meaning clients.now) session.now.number now count store.old
        store.new to.old.items to.new.items result (D.tells disk.old) (D.tells disk.new) }
    ensures gathering { store.new.closed ≡ false
        → IsGathering (C.meaning clients.now) store.new (D.tells disk.new).files }
    ensures is_store { IsStore store.new }
    ensures fault { IsErrOf result StoreFault.DiskFault
        → CountRose (D.tells disk.old).disk_faults (D.tells disk.new).disk_faults }
{
    images_stand();
    let mut made = 0;
    'outs: while made < count {
        if !put_next(alloc, store, disk, clients, session, now, to)? {
            return Ok(made);
        }
        made += 1;
    }
    Ok(made)
}

// Gathers the next output that is due, and adds its bytes. Answers whether one was due.
fn put_next<D: Disk, C: Clients>(
    alloc: Global,
    store: &mut Store,
    disk: &mut D,
    clients: &C,
    session: &Session,
    now: u64,
    to: &mut Vec<u8>,
) -> Result<bool, StoreFault>
    requires able { IsOpenFor (C.meaning clients.now) session.now store.old (D.tells disk.old) }
    ensures put { HasPut (C.meaning clients.now) session.now.number now store.old store.new
        to.old.items to.new.items result (D.tells disk.old) (D.tells disk.new) }
    ensures able { OnOk result (IsOpenFor (C.meaning clients.now) session.now store.new
        (D.tells disk.new)) }
    ensures gathering { store.new.closed ≡ false
        → IsGathering (C.meaning clients.now) store.new (D.tells disk.new).files }
    ensures is_store { IsStore store.new }
    ensures fault { IsErrOf result StoreFault.DiskFault
        → CountRose (D.tells disk.old).disk_faults (D.tells disk.new).disk_faults }
{
    images_stand();
    steps();
    let Some(out) = store.state().due_on(alloc, session.number, now)? else {
        return Ok(false);
    };
    let bytes = spell_out(alloc, store, &out)?;
    to.extend_from_slice(bytes.as_slice())?;
    let batch = Batch::single(alloc, Entry::Out(session.number, now, out))?;
    store.gather_known(disk, clients, batch, None)?;
    Ok(true)
}
