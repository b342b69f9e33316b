// The command `say GROUP TIMESTAMP STANCE NAME MAJOR DESCRIPTOR`.
ghost use Rattle.std.specs.Prelude.{◌≡◌, ◌≤◌, IfOk, MatchResult, None, Some};
ghost use Rattle.sync_rules.specs.Facts.{group_at};
ghost use Rattle.sync_words.specs.Outcomes.{came_to};
ghost use Rattle.store_commands.specs.Entries.{HasAdded};
ghost use Rattle.store_commands.specs.Load.{MayExtend};
ghost use Rattle.store_commands.specs.Post.{IsPlanOfPost};
ghost use Rattle.store_commands.specs.Serving.{IsServed, LeavesSessionsBy, ServesOn, WasLoaded};
ghost use Rattle.sharing_commands.specs.Sayings.{message_said, say_plan, sharing_test};

use crate::previous::previous_own;
use client_sharing::{Saying, is_sharing, write_saying};
use outside::{Disk, Sink};
use std::alloc::{AllocError, Global};
use std::hash::RandomState;
use store_commands::{PlannedPost, Settling, add_entry, load_store, plan_message};
use sync_ids::{GroupDef, GroupId, MAX_TIMESTAMP, Message};
use sync_rules::{Clients, Entry, Refused};
use sync_store::Store;
use sync_words::Outcome;

/// What is said of a group in a `sharing` group.
#[derive(Debug, Drop)]
pub struct Speech {
    /// The `sharing` group.
    pub group: GroupId,
    /// The time of the message.
    pub timestamp: u64,
    /// Whether its author joins the group that is spoken of, or leaves it.
    pub join: bool,
    /// The definition of the group that is spoken of.
    pub def: GroupDef,
}

/// Adds a message that says this to its `sharing` group, settles, and prints the message's id.
pub fn say<D: Disk, W: Sink, C: Clients>(
    alloc: Global,
    hasher: RandomState,
    speech: Speech,
    disk: &mut D,
    out: &mut W,
    clients: &C,
) -> Result<(), Outcome>
    requires { speech.timestamp ≤ MAX_TIMESTAMP }
    ensures { HasAdded (C.meaning clients.now) (say_plan (C.meaning clients.now) speech)
        Settling.BeforeAndAfter (D.tells disk.old) (D.tells disk.new) (W.tells out.old)
        (W.tells out.new) (came_to result) }
{
    let mut store = load_store(alloc, hasher, disk, clients)?;
    say_loaded(alloc, &mut store, speech, disk, out, clients)
}

/// The same of a store that was loaded. After each outcome but `DiskFault` it may be used again;
/// after `Memory` it is to be settled first.
pub fn say_loaded<D: Disk, W: Sink, C: Clients>(
    alloc: Global,
    store: &mut Store,
    speech: Speech,
    disk: &mut D,
    out: &mut W,
    clients: &C,
) -> Result<(), Outcome>
    requires ready { MayExtend (C.meaning clients.now) store.old (D.tells disk.old).files }
    requires timestamp { speech.timestamp ≤ MAX_TIMESTAMP }
    ensures said { (start : D)
        → WasLoaded (C.meaning clients.now) store.old (D.tells start) (D.tells disk.old)
        → HasAdded (C.meaning clients.now) (say_plan (C.meaning clients.now) speech)
        Settling.BeforeAndAfter (D.tells start) (D.tells disk.new) (W.tells out.old) (W.tells out.new)
        (came_to result) }
    ensures serves { IsServed (C.meaning clients.now) store.old (D.tells disk.old)
        → ServesOn (C.meaning clients.now) store.new (D.tells disk.new) (came_to result) }
    ensures sessions { LeavesSessionsBy store.old store.new (came_to result) }
{
    let post = plan_saying(alloc, store, clients, speech)?;
    let PlannedPost { message, id } = post;
    add_entry(
        alloc,
        store,
        Entry::Author(message),
        Some(id),
        Settling::BeforeAndAfter,
        disk,
        out,
        clients,
    )
}

// The message that says this, with its id.
fn plan_saying<C: Clients>(
    alloc: Global,
    store: &Store,
    clients: &C,
    speech: Speech,
) -> Result<PlannedPost, Outcome>
    requires { speech.timestamp ≤ MAX_TIMESTAMP }
    ensures { IsPlanOfPost (say_plan (C.meaning clients.now) speech store.now.state.facts) result }
{
    if let Some(why) = refusal(store, &speech.group) {
        return Err(Outcome::Refused(why));
    }
    match message_said(alloc, store, speech) {
        Ok(message) => plan_message(store, clients, message),
        Err(_) => Err(Outcome::Memory),
    }
}

/// Why nothing is said in a group: it is not known, or it is no `sharing` group.
pub(crate) fn refusal(store: &Store, group: &GroupId) -> Option<Refused>
    ensures { result ≡ sharing_test (group_at store.now.state.facts.groups group.now) }
{
    match store.state().group(group) {
        Some(number) => (!is_sharing(store.group_def(number))).then_some(Refused::NotSharing),
        None => Some(Refused::UnknownGroup),
    }
}

// The message that says this.
fn message_said(alloc: Global, store: &Store, speech: Speech) -> Result<Message, AllocError>
    requires { speech.timestamp ≤ MAX_TIMESTAMP }
    ensures { IfOk result (λ m. m ≡ message_said store.now.state.facts speech) }
{
    let previous = previous_own(store, &speech.group);
    let Speech {
        group,
        timestamp,
        join,
        def,
    } = speech;
    let saying = Saying {
        join,
        previous,
        def,
    };
    let body = write_saying(alloc, &saying)?;
    match Message::new(group, timestamp, body) {
        Ok(message) => Ok(message),
        Err(_) => unreachable!(),
    }
}
