//! What is due on a link is committed, and then sent in one call.
ghost use Rattle.std.specs.Prelude.{◌≡◌, ◌∷◌, ◌<◌, []};
ghost use Rattle.sync_rules.specs.Legal.{Allowed};
ghost use Rattle.sync_rules.specs.declared.entries.Entry.TheVariants as entry;
ghost use Rattle.sync_course.specs.declared.TheConstants.{MAX_OUTPUTS};
ghost use Rattle.sync_node.specs.Sending.{MaySend, SendsOn, SendsOuts, has_broken, outs_answer};
ghost use Rattle.sync_node.specs.Keeps.{GatherWorks, LinkWorks};
ghost use Rattle.sync_node.specs.OnLinks.{DueStopped, DueWent, OutHalted, OutJoined};
ghost use Rattle.sync_node.specs.OnLinks.{OutsHalted, OutsJoined};
ghost use Rattle.sync_node.specs.Working.{IsAble, MayGather};

use crate::fault::Fault;
use crate::link::Link;
use crate::told::{cite_laws, cite_store, flush, join};
use output_spelling::spell_out;
use outside::Host;
use std::alloc::Global;
use sync_course::{LinkEnd, MAX_OUTPUTS};
use sync_rules::{Batch, Clients, Entry, Out};
use sync_store::Store;

/// The outputs that were committed in a turn of a link: how many, and the bytes of all of them in
/// order.
#[derive(Drop)]
pub(crate) struct Outs {
    pub(crate) made: u32,
    pub(crate) bytes: Vec<u8>,
}

/// Commits what is due on the link at this time, at most `MAX_OUTPUTS` outputs, adds them to the
/// journal together, and then sends them in one call; answers how many. A failed send closes the
/// link. So many outputs were committed, all of them were sent behind that, and the link's turn is
/// done; or some of them were, and then memory was wanting, or the next one would pass the limit; or
/// a call of the disk failed, and nothing was sent.
pub(crate) fn send_all<H: Host, C: Clients>(
    alloc: Global,
    store: &mut Store,
    host: &mut H,
    clients: &C,
    number: u8,
    link: &mut Link,
    now: u64,
) -> Result<u32, Fault>
    requires able { IsAble (C.meaning clients.now) number link.old.session store.old
        (H.tells host.old) }
    requires unclosed { MaySend link.old.end }
    ensures { LinkWorks (DueWent now) (DueStopped now) (C.meaning clients.now) number link.old
        link.new store.old store.new (H.tells host.old) (H.tells host.new) result }
{
    cite_laws();
    cite_store(store);
    let mut outs = Outs {
        made: 0,
        bytes: Vec::new(alloc),
    };
    let joined = join_outs(alloc, store, host, clients, number, link, now, &mut outs);
    if disk_failed(&joined) {
        return Err(Fault::DiskFault);
    }
    flush(store, host, clients)?;
    send_outs(host, number, link, &outs);
    answer_outs(&joined, outs.made, link.may_send())
}

// Commits outputs that are due, one behind the other, and keeps their bytes. They wait to be added
// to the journal. Where it is stopped, those before are kept.
fn join_outs<H: Host, C: Clients>(
    alloc: Global,
    store: &mut Store,
    host: &mut H,
    clients: &C,
    number: u8,
    link: &Link,
    now: u64,
    outs: &mut Outs,
) -> Result<(), Fault>
    requires able { MayGather (C.meaning clients.now) number link.now.session store.old
        (H.tells host.old) }
    requires none { outs.old.made ≡ 0 }
    requires no_bytes { outs.old.bytes.items ≡ [] }
    ensures { GatherWorks (OutsJoined now outs.new.made outs.new.bytes.items)
        (OutsHalted now outs.new.made outs.new.bytes.items) (C.meaning clients.now) number link.now
        link.now store.old store.new (H.tells host.old) (H.tells host.new) result }
{
    cite_laws();
    'outs: while outs.made < MAX_OUTPUTS {
        let Some(out) = store.state().due_on(alloc, link.session.number, now)? else {
            return Ok(());
        };
        join_out(alloc, store, host, clients, number, link, now, out, outs)?;
    }
    Ok(())
}

// Commits an output, and keeps its bytes behind those before. It is spelled first, and room is made
// for its bytes, so that nothing may fail between its commit and the send. It waits to be added to
// the journal; or nothing was kept, and nothing committed.
fn join_out<H: Host, C: Clients>(
    alloc: Global,
    store: &mut Store,
    host: &mut H,
    clients: &C,
    number: u8,
    link: &Link,
    now: u64,
    out: Out,
    outs: &mut Outs,
) -> Result<(), Fault>
    requires able { MayGather (C.meaning clients.now) number link.now.session store.old
        (H.tells host.old) }
    requires few { outs.old.made < MAX_OUTPUTS }
    requires allowed { Allowed (C.meaning clients.now) store.old.state.facts
        (entry.Out link.now.session.number now out ∷ []) }
    ensures { GatherWorks
        (OutJoined now outs.old.made outs.old.bytes.items outs.new.made outs.new.bytes.items)
        (OutHalted now outs.old.made outs.old.bytes.items outs.new.made outs.new.bytes.items)
        (C.meaning clients.now) number link.now link.now store.old store.new (H.tells host.old)
        (H.tells host.new) result }
{
    cite_laws();
    let bytes = spell_out(alloc, store, &out)?;
    outs.bytes.reserve(bytes.len())?;
    let batch = Batch::single(alloc, Entry::Out(link.session.number, now, out))?;
    join(store, host, clients, batch, None)?;
    outs.bytes.extend_from_slice(bytes.as_slice()).unwrap();
    outs.made += 1;
    Ok(())
}

// Whether a call of the disk failed.
fn disk_failed(joined: &Result<(), Fault>) -> bool
    ensures { result ≡ has_broken joined.now }
{
    matches!(joined, Err(Fault::DiskFault))
}

// Sends the outputs of a turn in one call, if there are any; where it fails the link is closed.
fn send_outs<H: Host>(host: &mut H, number: u8, link: &mut Link, outs: &Outs)
    requires { number < (H.tells host.old).links.dialled }
    ensures { SendsOuts outs.now.made number outs.now.bytes.items link.old link.new host.old
        host.new (H.tells host.old) (H.tells host.new) }
{
    if outs.made > 0 {
        send_on(host, number, link, outs.bytes.as_slice());
    }
}

// How many outputs were made; or what stopped them, but where the next one found no room and the
// link is closed: there is no next one then.
fn answer_outs(joined: &Result<(), Fault>, made: u32, is_open: bool) -> Result<u32, Fault>
    ensures { result ≡ outs_answer joined.now made is_open }
{
    match joined {
        Ok(()) => Ok(made),
        Err(Fault::Memory) => Err(Fault::Memory),
        Err(Fault::Full) => { if is_open { Err(Fault::Full) } else { Ok(made) } }
        Err(Fault::DiskFault) => Err(Fault::DiskFault),
    }
}

/// Sends on a link; a failed send closes it.
pub(crate) fn send_on<H: Host>(host: &mut H, number: u8, link: &mut Link, bytes: &[u8])
    requires { number < (H.tells host.old).links.dialled }
    ensures { SendsOn number bytes.now link.old link.new (H.tells host.old) (H.tells host.new) }
{
    match host.send(number, bytes) {
        Ok(()) => {}
        Err(_) => link.end = LinkEnd::Failed,
    }
}
