//! What is heard on a link is taken.
ghost use Rattle.std.specs.Prelude.{◌≡◌, length, IfOk, OnOk};
ghost use Rattle.sync_course.specs.declared.TheConstants.{PIECE_LEN};
ghost use Rattle.sync_node.specs.Sending.{LearnsNonce};
ghost use Rattle.sync_node.specs.Keeps.{GatherWorks, LinkWorks};
ghost use Rattle.sync_node.specs.OnLinks.{HearingStopped, HearingWent, ItemsHalted, ItemsStopped};
ghost use Rattle.sync_node.specs.OnLinks.{NextWent, PieceTaken, PieceWent, RecordWorks};
ghost use Rattle.sync_node.specs.Working.{HasGivenItems, IsAble, IsOpenToTake, LeavesLess};
ghost use Rattle.sync_node.specs.Working.{MayGather, MayWork};

use crate::fault::Fault;
use crate::link::{Link, ended};
use crate::told::{cite_laws, cite_store, flush, join, settle};
use outside::{Heard, Host};
use record_stream::{Next, Piece};
use session_core::{take_known, versions_ok};
use std::alloc::Global;
use sync_course::LinkEnd;
use sync_ids::{Record, records_are_within};
use sync_rules::{Clients, Session};
use sync_store::Store;

/// Hears once on a link that is still asked, and takes what came, as one group. Answers whether
/// nothing came for now. `work`: each record that came was taken, with the settling behind it, and
/// all of it stands in the journal, and the link waits for the clock or is closed; or some records
/// were taken, and then memory was wanting, or the next one would pass the limit; or a call of the
/// disk failed in adding them.
pub(crate) fn receive_on<H: Host, C: Clients>(
    alloc: Global,
    store: &mut Store,
    host: &mut H,
    clients: &C,
    number: u8,
    link: &mut Link,
    buffer: &mut [u8],
) -> Result<bool, Fault>
    requires able { MayWork (C.meaning clients.now) number link.old store.old (H.tells host.old) }
    requires asked { link.old.end ≡ LinkEnd.Going }
    requires whole { length buffer.old ≡ PIECE_LEN }
    ensures work { LinkWorks HearingWent HearingStopped (C.meaning clients.now) number link.old
        link.new store.old store.new (H.tells host.old) (H.tells host.new) result }
    ensures waits { OnOk result (HasGivenItems link.new) }
{
    cite_laws();
    match host.recv(number, buffer) {
        Heard::Got(count) => {
            let mut piece = Piece::new(&buffer[..count]);
            take_group(alloc, store, host, clients, number, link, &mut piece)?;
            Ok(false)
        }
        Heard::Idle => Ok(true),
        Heard::End => {
            link.end = ended(link.reader.end());
            Ok(false)
        }
        Heard::Failed => {
            link.end = LinkEnd::Failed;
            Ok(false)
        }
    }
}

// Takes the records of a piece with their settling, and then adds the batches that wait of them to
// the journal: nothing of the piece waits behind this. Where it is stopped for want of memory or of
// room, what came before is added too.
fn take_group<H: Host, C: Clients>(
    alloc: Global,
    store: &mut Store,
    host: &mut H,
    clients: &C,
    number: u8,
    link: &mut Link,
    piece: &mut Piece,
) -> Result<(), Fault>
    requires able { IsAble (C.meaning clients.now) number link.old.session store.old
        (H.tells host.old) }
    requires asked { link.old.end ≡ LinkEnd.Going }
    ensures work { LinkWorks (PieceTaken piece.old) (ItemsStopped piece.old) (C.meaning clients.now)
        number link.old link.new store.old store.new (H.tells host.old) (H.tells host.new) result }
    ensures waits { OnOk result (HasGivenItems link.new) }
{
    cite_store(store);
    match take_piece(alloc, store, host, clients, number, link, piece) {
        Ok(()) => flush(store, host, clients),
        Err(Fault::Memory) => {
            flush(store, host, clients)?;
            Err(Fault::Memory)
        }
        Err(Fault::Full) => {
            flush(store, host, clients)?;
            Err(Fault::Full)
        }
        Err(Fault::DiskFault) => Err(Fault::DiskFault),
    }
}

// Takes the records of a piece, one after the other, until the piece is used up or the link is
// closed. Their batches wait, or were added where a group was full. Where it is stopped, what came
// before was taken.
fn take_piece<H: Host, C: Clients>(
    alloc: Global,
    store: &mut Store,
    host: &mut H,
    clients: &C,
    number: u8,
    link: &mut Link,
    piece: &mut Piece,
) -> Result<(), Fault>
    requires may { MayGather (C.meaning clients.now) number link.old.session store.old
        (H.tells host.old) }
    requires asked { link.old.end ≡ LinkEnd.Going }
    ensures work { GatherWorks (PieceWent piece.old) (ItemsHalted piece.old) (C.meaning clients.now)
        number link.old link.new store.old store.new (H.tells host.old) (H.tells host.new) result }
    ensures waits { OnOk result (HasGivenItems link.new) }
{
    cite_laws();
    'items: while link.is_asked() {
        if !take_next(alloc, store, host, clients, number, link, piece)? {
            return Ok(());
        }
    }
    Ok(())
}

// Takes the next record of a piece, or passes over the next skipped one. Answers whether there was
// one; no record closes the link. Where it is stopped, nothing of the record is gathered, or its
// batch alone where settling behind it was stopped.
fn take_next<H: Host, C: Clients>(
    alloc: Global,
    store: &mut Store,
    host: &mut H,
    clients: &C,
    number: u8,
    link: &mut Link,
    piece: &mut Piece,
) -> Result<bool, Fault>
    requires may { MayGather (C.meaning clients.now) number link.old.session store.old
        (H.tells host.old) }
    requires asked { link.old.end ≡ LinkEnd.Going }
    ensures work { GatherWorks (NextWent piece.old piece.new) (ItemsHalted piece.old)
        (C.meaning clients.now) number link.old link.new store.old store.new (H.tells host.old)
        (H.tells host.new) result }
    ensures left { IfOk result (LeavesLess link.old piece.old link.new piece.new) }
{
    cite_laws();
    match link.reader.next_in(piece)? {
        Next::One(place, rec) => {
            learn(link, place, &rec);
            take_one(alloc, store, host, clients, &link.session, rec)?;
            Ok(true)
        }
        Next::Skipped(_, _, _) => Ok(true),
        Next::More => Ok(false),
        Next::Bad(place, reason) => {
            link.end = LinkEnd::Bad(place, reason);
            Ok(false)
        }
    }
}

// What a record says of the link that it was heard on: a nonce, or that the other end does not
// speak our version.
fn learn(link: &mut Link, place: u64, rec: &Record)
    ensures { LearnsNonce place rec.now link.old link.new }
{
    match rec {
        Record::Versions(versions) => {
            if !versions_ok(versions) {
                link.end = LinkEnd::NoVersion(place);
            }
        }
        Record::Priority(nonce) => {
            if link.nonce.is_none() {
                link.nonce = Some(*nonce);
            }
        }
        Record::Ack(_) | Record::Message(_) | Record::Offer(_) | Record::Request(_) => {}
    }
}

// Gathers the batch of a session's next record, with the id that was computed for it, and its
// settling. Where it is stopped, the batch is not gathered, or it is and some settling is left.
fn take_one<H: Host, C: Clients>(
    alloc: Global,
    store: &mut Store,
    host: &mut H,
    clients: &C,
    session: &Session,
    rec: Record,
) -> Result<(), Fault>
    requires able { IsOpenToTake (C.meaning clients.now) session.now store.old (H.tells host.old) }
    ensures { RecordWorks (C.meaning clients.now) session.now.number rec store.old store.new
        (H.tells host.old) (H.tells host.new) result }
{
    cite_laws();
    records_are_within(&rec);
    let taken = store.state().takes(session.number);
    let known = take_known(alloc, store, session, taken, rec)?;
    let (batch, id) = known;
    join(store, host, clients, batch, id)?;
    settle(store, host, clients)
}
