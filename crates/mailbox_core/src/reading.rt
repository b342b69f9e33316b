//! A file that is read into a store.
ghost use Rattle.std.specs.Prelude.{◌≡◌, ◌+◌, ◌<◌, Err, None, false, true, length, IfOk, IsErrOf, OnOk};
ghost use Rattle.outside.specs.Faults.{CountRose};
ghost use Rattle.outside.specs.Outside.{DiskRun};
ghost use Rattle.sync_rules.specs.declared.limits.TheConstants.{MAX_SESSIONS};
ghost use Rattle.sync_rules.specs.Steps.{IsSettled};
ghost use Rattle.sync_store.specs.Groups.{IsGathering};
ghost use Rattle.sync_store.specs.Ready.{IsReady};
ghost use Rattle.sync_store.specs.Store.{IsStore};
ghost use Rattle.sync_course.specs.Links.{closes};
ghost use Rattle.mailbox_core.specs.Reading.{HasReadBox};
ghost use Rattle.mailbox_core.specs.Steps.{HasGatheredBox, HasReadItem, HasReadRest, HasTakenRecord};
ghost use Rattle.mailbox_core.specs.Steps.{IsOpenFor, left_of};

use crate::ends::{BoxEnd, BoxEnding, ends_as};
use crate::steps::begin;
use outside::Disk;
use record_stream::{Next, Piece, Reader};
use session_core::{take_known, versions_ok};
use std::alloc::Global;
use sync_ids::{Record, records_are_within};
use sync_rules::{Clients, Session};
use sync_store::laws::images_stand;
use sync_store::{Store, StoreFault};

/// The latency of the session on which a file is read, in milliseconds. Nothing is sent on it.
const LATENCY: u32 = 1;

/// Reads a file of records from a contact into a settled store: a batch session begins, and each
/// record is taken on it, with settling behind it. All of it is added to the journal in groups, as
/// few as the frames take. A VERSIONS without version 0 is taken, and nothing behind it. `Closed`
/// comes exactly where an earlier call answered `DiskFault`, and then nothing is done. `Full` comes
/// exactly where the session, or the next record, finds no room: the journal, the frame and the room
/// that settling may then need pass the limit. After `Full` and `Memory` the store is extended by
/// what was taken before; after `DiskFault` it is closed.
pub fn read_box<D: Disk, C: Clients>(
    alloc: Global,
    store: &mut Store,
    disk: &mut D,
    clients: &C,
    contact: u8,
    bytes: &[u8],
) -> Result<BoxEnd, StoreFault>
    requires ready { store.old.closed ≡ false
        → IsReady (C.meaning clients.now) store.old (D.tells disk.old).files }
    requires settled { IsSettled (C.meaning clients.now) store.old.state.facts }
    requires known { contact < store.old.state.facts.contacts }
    requires few { store.old.state.facts.begun < MAX_SESSIONS }
    ensures read { store.old.closed ≡ false → HasReadBox (C.meaning clients.now) contact bytes.now
        store.old store.new result (D.tells disk.old) (D.tells disk.new) }
    ensures closed { store.old.closed ≡ true → (result ≡ Err StoreFault.Closed)
        × (store.new ≡ store.old) × (disk.new ≡ disk.old) }
    ensures ready { store.new.closed ≡ false
        → IsReady (C.meaning clients.now) store.new (D.tells disk.new).files }
    ensures is_store { IsStore store.new }
    ensures fault { IsErrOf result StoreFault.DiskFault
        → CountRose (D.tells disk.old).disk_faults (D.tells disk.new).disk_faults }
{
    if store.is_closed() {
        return Err(StoreFault::Closed);
    }
    images_stand();
    let read = gather_box(alloc, store, disk, clients, contact, bytes);
    if store.is_closed() {
        return read;
    }
    store.flush(disk, clients)?;
    read
}

// Takes the records of a file on a session of their own. What was taken waits, whatever the answer
// is.
fn gather_box<D: Disk, C: Clients>(
    alloc: Global,
    store: &mut Store,
    disk: &mut D,
    clients: &C,
    contact: u8,
    bytes: &[u8],
) -> Result<BoxEnd, StoreFault>
    requires gathering { IsGathering (C.meaning clients.now) store.old (D.tells disk.old).files }
    requires settled { IsSettled (C.meaning clients.now) store.old.state.facts }
    requires known { contact < store.old.state.facts.contacts }
    requires few { store.old.state.facts.begun < MAX_SESSIONS }
    ensures read { HasGatheredBox (C.meaning clients.now) contact bytes.now store.old store.new result
        (D.tells disk.old) (D.tells disk.new) }
    ensures gathering { store.new.closed ≡ false
        → IsGathering (C.meaning clients.now) store.new (D.tells disk.new).files }
    ensures is_store { IsStore store.new }
    ensures fault { IsErrOf result StoreFault.DiskFault
        → CountRose (D.tells disk.old).disk_faults (D.tells disk.new).disk_faults }
{
    images_stand();
    let mut reader = Reader::new(alloc)?;
    let session = begin(alloc, store, disk, clients, contact, LATENCY)?;
    let mut piece = Piece::new(bytes);
    take_all(
        alloc,
        store,
        disk,
        clients,
        &session,
        &mut reader,
        &mut piece,
    )
}

// Takes the records that are left, one after the other.
fn take_all<D: Disk, C: Clients>(
    alloc: Global,
    store: &mut Store,
    disk: &mut D,
    clients: &C,
    session: &Session,
    reader: &mut Reader,
    piece: &mut Piece,
) -> Result<BoxEnd, StoreFault>
    requires able { IsOpenFor (C.meaning clients.now) session.now store.old (D.tells disk.old) }
    ensures read { HasReadRest (C.meaning clients.now) session.now.number store.old store.new
        (left_of reader.old piece.old) result (D.tells disk.old) (D.tells disk.new) }
    ensures gathering { store.new.closed ≡ false
        → IsGathering (C.meaning clients.now) store.new (D.tells disk.new).files }
    ensures is_store { IsStore store.new }
    ensures fault { IsErrOf result StoreFault.DiskFault
        → CountRose (D.tells disk.old).disk_faults (D.tells disk.new).disk_faults }
{
    images_stand();
    let before = store.state().takes(session.number);
    'items: loop {
        if let Some(ending) = take_next(alloc, store, disk, clients, session, reader, piece)? {
            let taken = store.state().takes(session.number) - before;
            return Ok(BoxEnd { taken, ending });
        }
    }
}

// Takes the next record, or passes over the next skipped one. Answers how the reading ends, once it
// does.
fn take_next<D: Disk, C: Clients>(
    alloc: Global,
    store: &mut Store,
    disk: &mut D,
    clients: &C,
    session: &Session,
    reader: &mut Reader,
    piece: &mut Piece,
) -> Result<Option<BoxEnding>, StoreFault>
    requires able { IsOpenFor (C.meaning clients.now) session.now store.old (D.tells disk.old) }
    ensures read { HasReadItem (C.meaning clients.now) session.now.number store.old store.new
        (left_of reader.old piece.old) (left_of reader.new piece.new) result (D.tells disk.old)
        (D.tells disk.new) }
    ensures able { OnOk result (IsOpenFor (C.meaning clients.now) session.now store.new
        (D.tells disk.new)) }
    ensures left { IfOk result (λ ending. ending ≡ None → length reader.new.bytes + length piece.new
        < length reader.old.bytes + length piece.old) }
    ensures gathering { store.new.closed ≡ false
        → IsGathering (C.meaning clients.now) store.new (D.tells disk.new).files }
    ensures is_store { IsStore store.new }
    ensures fault { IsErrOf result StoreFault.DiskFault
        → CountRose (D.tells disk.old).disk_faults (D.tells disk.new).disk_faults }
{
    images_stand();
    match reader.next_in(piece)? {
        Next::One(place, rec) => {
            let foreign = is_foreign(&rec);
            take_one(alloc, store, disk, clients, session, rec)?;
            if foreign {
                Ok(Some(BoxEnding::NoVersion(place)))
            } else {
                Ok(None)
            }
        }
        Next::Skipped(_, _, _) => Ok(None),
        Next::More | Next::Bad(_, _) => Ok(Some(ends_as(reader.end()))),
    }
}

// Whether a record says that its sender does not speak this node's version.
fn is_foreign(rec: &Record) -> bool
    ensures { result ≡ closes rec.now }
{
    match rec {
        Record::Versions(versions) => !versions_ok(versions),
        _ => false,
    }
}

// Takes a record, and makes the steps behind it; both wait.
fn take_one<D: Disk, C: Clients>(
    alloc: Global,
    store: &mut Store,
    disk: &mut D,
    clients: &C,
    session: &Session,
    rec: Record,
) -> Result<(), StoreFault>
    requires able { IsOpenFor (C.meaning clients.now) session.now store.old (D.tells disk.old) }
    ensures taken { HasTakenRecord (C.meaning clients.now) session.now.number rec store.old store.new
        result (D.tells disk.old) (D.tells disk.new) }
    ensures able { OnOk result (IsOpenFor (C.meaning clients.now) session.now store.new
        (D.tells disk.new)) }
    ensures gathering { store.new.closed ≡ false
        → IsGathering (C.meaning clients.now) store.new (D.tells disk.new).files }
    ensures is_store { IsStore store.new }
    ensures fault { IsErrOf result StoreFault.DiskFault
        → CountRose (D.tells disk.old).disk_faults (D.tells disk.new).disk_faults }
{
    images_stand();
    records_are_within(&rec);
    let k = store.state().takes(session.number);
    let (batch, id) = take_known(alloc, store, session, k, rec)?;
    store.gather_known(disk, clients, batch, id)?;
    store.gather_settling(disk, clients)
}
