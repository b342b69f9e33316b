// The command `mailbox out CONTACT LATENCY COUNT`.
ghost use Rattle.std.specs.Prelude.{◌≡◌, ◌++◌, ◌<◌, ◌≤◌, [], IfOk};
ghost use Rattle.entry_codec.specs.declared.naming.Format.TheVariants as kind;
ghost use Rattle.sync_rules.specs.Growth.{output_of};
ghost use Rattle.sync_rules.specs.Steps.{IsSettled};
ghost use Rattle.sync_store.specs.Ready.{IsReady};
ghost use Rattle.sync_store.specs.Store.{written_in};
ghost use Rattle.sync_words.specs.Outcomes.{came_to};
ghost use Rattle.store_commands.specs.Commit.{StoreStaysReady};
ghost use Rattle.store_commands.specs.Load.{MayExtend};
ghost use Rattle.store_commands.specs.Serving.{IsServed, ServesOn, StaysSettled, WasLoaded};
ghost use Rattle.mailbox_commands.specs.Tests.{MayBeginWith};
ghost use Rattle.store_commands.specs.Running.{DoesErrand, RunsErrand};
ghost use Rattle.mailbox_commands.specs.Sending.{HasSentMail, TellsSent, out_errand};

use crate::tests::refusal;
use mailbox_core::laws::outputs_are_sent;
use mailbox_core::write_box;
use outside::{Disk, Host, Sink};
use std::alloc::Global;
use std::hash::RandomState;
use store_commands::{load_store, migrate_and_settle, print_bytes};
use sync_rules::Clients;
use sync_store::{Store, StoreFault};
use sync_words::Outcome;

/// What is to be written.
#[derive(Clone, Copy, Debug, PartialEq, Eq)]
pub struct Sending {
    /// For whom.
    pub contact: u8,
    /// The latency of its session, in milliseconds.
    pub latency: u32,
    /// The most outputs in it.
    pub count: u32,
}

/// Reads the clock once, migrates the journal and settles it, commits what is due to a contact then
/// on a session of its own, and writes the bytes of all that the session sends, behind the last call
/// on the disk.
pub fn send_mail<H: Host, W: Sink, C: Clients>(
    alloc: Global,
    hasher: RandomState,
    asked: Sending,
    host: &mut H,
    out: &mut W,
    clients: &C,
) -> Result<(), Outcome>
    requires { 1 ≤ asked.latency }
    ensures { HasSentMail (C.meaning clients.now) asked (H.tells host.old) (H.tells host.new)
        (W.tells out.old) (W.tells out.new) (came_to result) }
{
    let mut store = load_store(alloc, hasher, host, clients)?;
    send_mail_loaded(alloc, &mut store, asked, host, out, clients)
}

/// The same of a store that was loaded. After each outcome but `DiskFault` it may be used again;
/// after `Memory` it is to be settled first.
pub fn send_mail_loaded<H: Host, W: Sink, C: Clients>(
    alloc: Global,
    store: &mut Store,
    asked: Sending,
    host: &mut H,
    out: &mut W,
    clients: &C,
) -> Result<(), Outcome>
    requires ready { MayExtend (C.meaning clients.now) store.old (H.tells host.old).files }
    requires latency { 1 ≤ asked.latency }
    ensures sent { (start : H)
        → WasLoaded (C.meaning clients.now) store.old (H.tells start) (H.tells host.old)
        → HasSentMail (C.meaning clients.now) asked (H.tells start) (H.tells host.new) (W.tells out.old)
        (W.tells out.new) (came_to result) }
    ensures serves { IsServed (C.meaning clients.now) store.old (H.tells host.old)
        → ServesOn (C.meaning clients.now) store.new (H.tells host.new) (came_to result) }
{
    if let Some(why) = refusal(store, asked.contact) {
        return Err(Outcome::Refused(why));
    }
    let now = host.now();
    send_at(alloc, store, asked, now, host, out, clients)
}

// Migrates, settles, commits what is due at this time, and writes its bytes.
fn send_at<D: Disk, W: Sink, C: Clients>(
    alloc: Global,
    store: &mut Store,
    asked: Sending,
    now: u64,
    disk: &mut D,
    out: &mut W,
    clients: &C,
) -> Result<(), Outcome>
    requires ready { MayExtend (C.meaning clients.now) store.old (D.tells disk.old).files }
    requires begins { MayBeginWith store.old.state.facts asked.contact }
    requires latency { 1 ≤ asked.latency }
    ensures ran { RunsErrand (C.meaning clients.now) (out_errand (C.meaning clients.now) asked now)
        store.old (D.tells disk.old) (D.tells disk.new) (W.tells out.old) (W.tells out.new)
        (came_to result) }
    ensures serves { written_in store.old ≡ kind.Short
        → ServesOn (C.meaning clients.now) store.new (D.tells disk.new) (came_to result) }
{
    outputs_are_sent();
    migrate_and_settle(store, disk, clients)?;
    // What every store keeps.
    let _end = store.end();
    let mut bytes = Vec::new(alloc);
    send_due(alloc, store, asked, now, disk, clients, &mut bytes)?;
    print_bytes(bytes.as_slice(), out)
}

// Commits what is due at this time to a settled store, and adds the bytes of the session.
fn send_due<D: Disk, C: Clients>(
    alloc: Global,
    store: &mut Store,
    asked: Sending,
    now: u64,
    disk: &mut D,
    clients: &C,
    to: &mut Vec<u8>,
) -> Result<(), Outcome>
    requires ready { IsReady (C.meaning clients.now) store.old (D.tells disk.old).files }
    requires settled { IsSettled (C.meaning clients.now) store.old.state.facts }
    requires begins { MayBeginWith store.old.state.facts asked.contact }
    requires latency { 1 ≤ asked.latency }
    ensures sent { TellsSent (C.meaning clients.now) asked now store.old store.new
        (D.tells disk.old) (D.tells disk.new) to.old.items to.new.items result }
    ensures stays { StoreStaysReady (C.meaning clients.now) store.new (D.tells disk.new).files
        result }
    ensures settled { StaysSettled (C.meaning clients.now) store.new result }
{
    match write_box(
        alloc,
        store,
        disk,
        clients,
        asked.contact,
        asked.latency,
        now,
        asked.count,
        to,
    ) {
        Ok(_) => Ok(()),
        Err(StoreFault::Full) => Err(Outcome::Full),
        Err(StoreFault::Memory) => Err(Outcome::Memory),
        Err(StoreFault::DiskFault) => Err(Outcome::DiskFault),
        Err(StoreFault::Closed) => unreachable!(),
    }
}
