// The commands that add one entry to a journal: `contact`, `group`, `share`.
ghost use Rattle.std.specs.Prelude.{◌≡◌, ◌∷◌, [], ◌++◌, false, true, IfOk, OnOk};
ghost use Rattle.std.specs.String.{string_bytes};
ghost use Rattle.session_core.specs.Known.{IsIdOf, IsOfAll};
ghost use Rattle.sync_ids.specs.Ids.{message_id_of};
ghost use Rattle.sync_rules.specs.Allows.{is_account_kind, is_settling_kind};
ghost use Rattle.sync_words.specs.Outcomes.{came_to};
ghost use Rattle.store_commands.specs.Commit.{MayFollow};
ghost use Rattle.store_commands.specs.Entries.{EntryAdded, HasAdded};
ghost use Rattle.store_commands.specs.Load.{MayExtend};
ghost use Rattle.store_commands.specs.Plans.{contact_plan, group_plan, level_plan};
ghost use Rattle.store_commands.specs.Serving.{IsServed, LeavesSessionsBy, KeepsSettled, ServesOn};
ghost use Rattle.store_commands.specs.Serving.{WasLoaded, begins_none};
ghost use Rattle.store_commands.specs.Shown.{added_text};

use crate::commit::{Settling, extend};
use crate::load::load_store;
use crate::plans::{plan_contact, plan_group, plan_level};
use crate::print::print_bytes;
use outside::{Disk, Sink};
use std::alloc::{AllocError, Global};
use std::hash::RandomState;
use sync_ids::{GroupDef, GroupId, Message, MessageId, group_id};
use sync_rules::{Batch, Clients, Entry, Level, id_of};
use sync_store::Store;
use sync_words::{Outcome, contact_line, group_line, level_line, posted_line};

/// Adds the next contact and prints its number.
pub fn add_contact<D: Disk, W: Sink, C: Clients>(
    alloc: Global,
    hasher: RandomState,
    disk: &mut D,
    out: &mut W,
    clients: &C,
) -> Result<(), Outcome>
    ensures { HasAdded (C.meaning clients.now) contact_plan Settling.Before (D.tells disk.old)
        (D.tells disk.new) (W.tells out.old) (W.tells out.new) (came_to result) }
{
    let mut store = load_store(alloc, hasher, disk, clients)?;
    add_contact_loaded(alloc, &mut store, disk, out, clients)
}

/// The same of a store that was loaded. After each outcome but `DiskFault` it may be used again;
/// after `Memory` it is to be settled first.
pub fn add_contact_loaded<D: Disk, W: Sink, C: Clients>(
    alloc: Global,
    store: &mut Store,
    disk: &mut D,
    out: &mut W,
    clients: &C,
) -> Result<(), Outcome>
    requires { MayExtend (C.meaning clients.now) store.old (D.tells disk.old).files }
    ensures added { (start : D)
        → WasLoaded (C.meaning clients.now) store.old (D.tells start) (D.tells disk.old)
        → HasAdded (C.meaning clients.now) contact_plan Settling.Before
        (D.tells start) (D.tells disk.new) (W.tells out.old) (W.tells out.new) (came_to result) }
    ensures serves { IsServed (C.meaning clients.now) store.old (D.tells disk.old)
        → ServesOn (C.meaning clients.now) store.new (D.tells disk.new) (came_to result) }
    ensures sessions { LeavesSessionsBy store.old store.new (came_to result) }
{
    let entry = plan_contact(store)?;
    add_entry(
        alloc,
        store,
        entry,
        None,
        Settling::Before,
        disk,
        out,
        clients,
    )
}

/// Adds a group and prints its id.
pub fn add_group<D: Disk, W: Sink, C: Clients>(
    alloc: Global,
    hasher: RandomState,
    def: GroupDef,
    disk: &mut D,
    out: &mut W,
    clients: &C,
) -> Result<(), Outcome>
    ensures { HasAdded (C.meaning clients.now) (λ f. group_plan (C.meaning clients.now) f def)
        Settling.Before (D.tells disk.old) (D.tells disk.new) (W.tells out.old) (W.tells out.new) (came_to result) }
{
    let mut store = load_store(alloc, hasher, disk, clients)?;
    add_group_loaded(alloc, &mut store, def, disk, out, clients)
}

/// The same of a store that was loaded. After each outcome but `DiskFault` it may be used again;
/// after `Memory` it is to be settled first.
pub fn add_group_loaded<D: Disk, W: Sink, C: Clients>(
    alloc: Global,
    store: &mut Store,
    def: GroupDef,
    disk: &mut D,
    out: &mut W,
    clients: &C,
) -> Result<(), Outcome>
    requires { MayExtend (C.meaning clients.now) store.old (D.tells disk.old).files }
    ensures added { (start : D)
        → WasLoaded (C.meaning clients.now) store.old (D.tells start) (D.tells disk.old)
        → HasAdded (C.meaning clients.now) (λ f. group_plan (C.meaning clients.now) f def) Settling.Before
        (D.tells start) (D.tells disk.new) (W.tells out.old) (W.tells out.new) (came_to result) }
    ensures serves { IsServed (C.meaning clients.now) store.old (D.tells disk.old)
        → ServesOn (C.meaning clients.now) store.new (D.tells disk.new) (came_to result) }
    ensures sessions { LeavesSessionsBy store.old store.new (came_to result) }
{
    let entry = plan_group(store, clients, def)?;
    add_entry(
        alloc,
        store,
        entry,
        None,
        Settling::Before,
        disk,
        out,
        clients,
    )
}

/// Sets the level of a group for a contact and prints it.
pub fn set_level<D: Disk, W: Sink, C: Clients>(
    alloc: Global,
    hasher: RandomState,
    contact: u8,
    group: &GroupId,
    level: Level,
    disk: &mut D,
    out: &mut W,
    clients: &C,
) -> Result<(), Outcome>
    ensures { HasAdded (C.meaning clients.now) (λ f. level_plan f contact group.now level)
        Settling.Before (D.tells disk.old) (D.tells disk.new) (W.tells out.old) (W.tells out.new) (came_to result) }
{
    let mut store = load_store(alloc, hasher, disk, clients)?;
    set_level_loaded(alloc, &mut store, contact, group, level, disk, out, clients)
}

/// The same of a store that was loaded. After each outcome but `DiskFault` it may be used again;
/// after `Memory` it is to be settled first.
pub fn set_level_loaded<D: Disk, W: Sink, C: Clients>(
    alloc: Global,
    store: &mut Store,
    contact: u8,
    group: &GroupId,
    level: Level,
    disk: &mut D,
    out: &mut W,
    clients: &C,
) -> Result<(), Outcome>
    requires { MayExtend (C.meaning clients.now) store.old (D.tells disk.old).files }
    ensures added { (start : D)
        → WasLoaded (C.meaning clients.now) store.old (D.tells start) (D.tells disk.old)
        → HasAdded (C.meaning clients.now) (λ f. level_plan f contact group.now level) Settling.Before
        (D.tells start) (D.tells disk.new) (W.tells out.old) (W.tells out.new) (came_to result) }
    ensures serves { IsServed (C.meaning clients.now) store.old (D.tells disk.old)
        → ServesOn (C.meaning clients.now) store.new (D.tells disk.new) (came_to result) }
    ensures sessions { LeavesSessionsBy store.old store.new (came_to result) }
{
    let entry = plan_level(store, contact, group, level)?;
    add_entry(
        alloc,
        store,
        entry,
        None,
        Settling::Before,
        disk,
        out,
        clients,
    )
}

/// Settles the journal, adds the entry, settles again where that is asked for, and prints the
/// entry's line. The id is that of the message that the entry brings, where the caller has it. A
/// store that is served stays so where the journal is settled behind the entry.
pub fn add_entry<D: Disk, W: Sink, C: Clients>(
    alloc: Global,
    store: &mut Store,
    entry: Entry,
    id: Option<MessageId>,
    settling: Settling,
    disk: &mut D,
    out: &mut W,
    clients: &C,
) -> Result<(), Outcome>
    requires ready { MayExtend (C.meaning clients.now) store.old (D.tells disk.old).files }
    requires follows { MayFollow (C.meaning clients.now) store.old.state.facts (entry ∷ []) }
    requires kind { is_settling_kind (entry ∷ []) ≡ false }
    requires plain { is_account_kind (entry ∷ []) ≡ false }
    requires named { IsOfAll id (entry ∷ []) }
    ensures added { EntryAdded (C.meaning clients.now) settling store.old entry (D.tells disk.old)
        (D.tells disk.new) (W.tells out.old) (W.tells out.new) (came_to result) }
    ensures serves { IsServed (C.meaning clients.now) store.old (D.tells disk.old)
        → KeepsSettled settling (entry ∷ [])
        → ServesOn (C.meaning clients.now) store.new (D.tells disk.new) (came_to result) }
    ensures sessions { begins_none entry ≡ true
        → LeavesSessionsBy store.old store.new (came_to result) }
{
    // A name of its own, since the id goes with the batch too.
    let known = id;
    let line = line_of(alloc, &entry, known)?;
    let batch = Batch::single(alloc, entry)?;
    extend(store, batch, id, settling, disk, clients)?;
    print_bytes(line.as_bytes(), out)
}

// The line of an entry that a command adds.
fn line_of(alloc: Global, entry: &Entry, id: Option<MessageId>) -> Result<String, AllocError>
    requires { IsOfAll id (entry.now ∷ []) }
    ensures { IfOk result (λ line. string_bytes line ≡ added_text entry.now) }
{
    let mut line = String::new(alloc);
    add_line(alloc, entry, id, &mut line)?;
    Ok(line)
}

fn add_line(
    alloc: Global,
    entry: &Entry,
    id: Option<MessageId>,
    to: &mut String,
) -> Result<(), AllocError>
    requires { IsOfAll id (entry.now ∷ []) }
    ensures { OnOk result (string_bytes to.new ≡ string_bytes to.old ++ added_text entry.now) }
{
    match entry {
        Entry::Contact(n) => contact_line(*n, to),
        Entry::Group(def) => group_line(alloc, &group_id(def), to),
        Entry::Level(contact, group, level) => level_line(alloc, *contact, group, *level, to),
        Entry::Author(message) => posted_line(alloc, &known_id(id, message), to),
        _ => Ok(()),
    }
}

// The id of a message: the one that is known, or else it is computed.
fn known_id(id: Option<MessageId>, message: &Message) -> MessageId
    requires { IsIdOf id message.now }
    ensures { result ≡ message_id_of message.now }
{
    match id {
        Some(known) => known,
        None => id_of(message),
    }
}
