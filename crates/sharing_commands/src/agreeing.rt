// The command `agree CONTACT GROUP`.
ghost use Rattle.std.specs.Prelude.{◌≡◌, ◌++◌, ◌<◌, OnOk};
ghost use Rattle.std.specs.String.{string_bytes};
ghost use Rattle.sync_words.specs.Outcomes.{came_to};
ghost use Rattle.store_commands.specs.Commit.{ExtendsBy};
ghost use Rattle.store_commands.specs.Load.{MayExtend};
ghost use Rattle.store_commands.specs.Running.{RunsErrand};
ghost use Rattle.store_commands.specs.Serving.{IsServed, LeavesSessionsBy, ServesOn, WasLoaded};
ghost use Rattle.store_commands.specs.Show.{PrintsText};
ghost use Rattle.sharing_commands.specs.Adding.{AddsFront, GathersFor, GathersFront, KnowsContact};
ghost use Rattle.sharing_commands.specs.Adding.{StaysGathering, StaysKnown};
ghost use Rattle.sharing_commands.specs.Agreeing.{HasAgreed, agreement};
ghost use Rattle.sharing_commands.specs.Agreement.{agree_test, agreed_batches, agreed_text};

use crate::saying::refusal;
use crate::setting::set_all;
use crate::words::gather_words;
use client_sharing::targets;
use outside::{Disk, Sink, write_text};
use std::alloc::Global;
use std::hash::RandomState;
use store_commands::{load_store, migrate_and_settle};
use sync_ids::GroupId;
use sync_rules::{Clients, Refused};
use sync_store::Store;
use sync_store::laws::images_stand;
use sync_words::Outcome;

/// Migrates the journal and settles it, sets the level of each group that this device and a contact
/// spoke of in a `sharing` group, adding those that both lead to and that are not known, and prints
/// a line for each.
pub fn agree<D: Disk, W: Sink, C: Clients>(
    alloc: Global,
    hasher: RandomState,
    contact: u8,
    group: &GroupId,
    disk: &mut D,
    out: &mut W,
    clients: &C,
) -> Result<(), Outcome>
    ensures { HasAgreed (C.meaning clients.now) contact group.now (D.tells disk.old)
        (D.tells disk.new) (W.tells out.old) (W.tells out.new) (came_to result) }
{
    let mut store = load_store(alloc, hasher, disk, clients)?;
    agree_loaded(alloc, &mut store, contact, group, disk, out, clients)
}

/// The same of a store that was loaded. After each outcome but `DiskFault` it may be used again;
/// after `Memory` it is to be settled first.
pub fn agree_loaded<D: Disk, W: Sink, C: Clients>(
    alloc: Global,
    store: &mut Store,
    contact: u8,
    group: &GroupId,
    disk: &mut D,
    out: &mut W,
    clients: &C,
) -> Result<(), Outcome>
    requires ready { MayExtend (C.meaning clients.now) store.old (D.tells disk.old).files }
    ensures agreed { (start : D)
        → WasLoaded (C.meaning clients.now) store.old (D.tells start) (D.tells disk.old)
        → HasAgreed (C.meaning clients.now) contact group.now (D.tells start) (D.tells disk.new)
        (W.tells out.old) (W.tells out.new) (came_to result) }
    ensures serves { IsServed (C.meaning clients.now) store.old (D.tells disk.old)
        → ServesOn (C.meaning clients.now) store.new (D.tells disk.new) (came_to result) }
    ensures sessions { LeavesSessionsBy store.old store.new (came_to result) }
{
    if let Some(why) = agree_refusal(store, contact, group) {
        return Err(Outcome::Refused(why));
    }
    set_agreed(alloc, store, contact, group, disk, out, clients)
}

// The first test that fails.
fn agree_refusal(store: &Store, contact: u8, group: &GroupId) -> Option<Refused>
    ensures { result ≡ agree_test store.now.state.facts contact group.now }
{
    if u32::from(contact) < store.contacts() {
        refusal(store, group)
    } else {
        Some(Refused::UnknownContact)
    }
}

// Migrates, settles, adds what the targets ask for, and prints their lines.
fn set_agreed<D: Disk, W: Sink, C: Clients>(
    alloc: Global,
    store: &mut Store,
    contact: u8,
    group: &GroupId,
    disk: &mut D,
    out: &mut W,
    clients: &C,
) -> Result<(), Outcome>
    requires ready { MayExtend (C.meaning clients.now) store.old (D.tells disk.old).files }
    requires known { contact < store.old.state.facts.contacts }
    ensures ran { RunsErrand (C.meaning clients.now) (agreement (C.meaning clients.now) contact
        group.now) store.old (D.tells disk.old) (D.tells disk.new) (W.tells out.old)
        (W.tells out.new) (came_to result) }
    ensures serves { IsServed (C.meaning clients.now) store.old (D.tells disk.old)
        → ServesOn (C.meaning clients.now) store.new (D.tells disk.new) (came_to result) }
    ensures sessions { LeavesSessionsBy store.old store.new (came_to result) }
{
    migrate_and_settle(store, disk, clients)?;
    // What every store keeps.
    let _end = store.end();
    let mut text = String::new(alloc);
    add_agreed(alloc, store, contact, group, disk, clients, &mut text)?;
    print_text(text.as_str(), out)
}

// Adds what the targets ask of a settled journal, and their lines.
fn add_agreed<D: Disk, C: Clients>(
    alloc: Global,
    store: &mut Store,
    contact: u8,
    group: &GroupId,
    disk: &mut D,
    clients: &C,
    to: &mut String,
) -> Result<(), Outcome>
    requires stands { KnowsContact (C.meaning clients.now) store.old (D.tells disk.old) contact }
    ensures adds { AddsFront (C.meaning clients.now) store.old store.new (D.tells disk.old)
        (D.tells disk.new) (agreed_batches (C.meaning clients.now) contact group.now
        store.old.state.facts) result }
    ensures by { ExtendsBy (D.tells disk.old) (D.tells disk.new) result }
    ensures stands { StaysKnown (C.meaning clients.now) store.new (D.tells disk.new) contact
        result }
    ensures text { OnOk result (string_bytes to.new ≡ string_bytes to.old ++ agreed_text
        (C.meaning clients.now) contact group.now store.old.state.facts) }
{
    let gathered = gather_agreed(alloc, store, contact, group, disk, clients, to);
    if store.is_closed() {
        return gathered;
    }
    match store.flush(disk, clients) {
        Ok(()) => gathered,
        Err(_) => Err(Outcome::DiskFault),
    }
}

// Gathers what the targets ask of a settled journal, and adds their lines. What was gathered waits,
// whatever the answer is.
fn gather_agreed<D: Disk, C: Clients>(
    alloc: Global,
    store: &mut Store,
    contact: u8,
    group: &GroupId,
    disk: &mut D,
    clients: &C,
    to: &mut String,
) -> Result<(), Outcome>
    requires stands { GathersFor (C.meaning clients.now) store.old (D.tells disk.old) contact }
    ensures adds { GathersFront (C.meaning clients.now) store.old store.new (D.tells disk.old)
        (D.tells disk.new) (agreed_batches (C.meaning clients.now) contact group.now
        store.old.state.facts) result }
    ensures by { ExtendsBy (D.tells disk.old) (D.tells disk.new) result }
    ensures stands { StaysGathering (C.meaning clients.now) store.new (D.tells disk.new) contact
        result }
    ensures text { OnOk result (string_bytes to.new ≡ string_bytes to.old ++ agreed_text
        (C.meaning clients.now) contact group.now store.old.state.facts) }
{
    images_stand();
    let said = gather_words(alloc, store, contact, group)?;
    let targets = targets(alloc, said.as_slice())?;
    set_all(alloc, store, contact, targets.as_slice(), disk, clients, to)
}

// Prints a text.
fn print_text<W: Sink>(text: &str, out: &mut W) -> Result<(), Outcome>
    ensures { PrintsText text.now (W.tells out.old) (W.tells out.new) (came_to result) }
{
    match write_text(out, text) {
        Ok(()) => Ok(()),
        Err(_) => Err(Outcome::WriteFault),
    }
}
