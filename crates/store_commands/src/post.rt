// The command `post GROUP TIMESTAMP`.
ghost use Rattle.std.specs.Prelude.{◌≤◌};
ghost use Rattle.sync_words.specs.Outcomes.{came_to};
ghost use Rattle.store_commands.specs.Load.{MayExtend};
ghost use Rattle.store_commands.specs.Post.{HasPosted, IsBodyRead};
ghost use Rattle.store_commands.specs.Serving.{IsServed, LeavesSessionsBy, ServesOn, WasLoaded};

use crate::commit::Settling;
use crate::entries::add_entry;
use crate::load::load_store;
use crate::plans::{PlannedPost, plan_post};
use outside::{Disk, InputFault, Sink, Source, read_input};
use std::alloc::Global;
use std::hash::RandomState;
use sync_ids::{GroupId, MAX_BODY, MAX_TIMESTAMP};
use sync_rules::{Clients, Entry, Refused};
use sync_store::Store;
use sync_words::Outcome;

/// Reads a body from the input, adds its message to a group, settles, and prints the message's id.
pub fn post_message<D: Disk, S: Source, W: Sink, C: Clients>(
    alloc: Global,
    hasher: RandomState,
    group: GroupId,
    timestamp: u64,
    disk: &mut D,
    input: &mut S,
    out: &mut W,
    clients: &C,
) -> Result<(), Outcome>
    requires { timestamp ≤ MAX_TIMESTAMP }
    ensures { HasPosted (C.meaning clients.now) group timestamp (D.tells disk.old)
        (D.tells disk.new) (S.tells input.old) (S.tells input.new) (W.tells out.old)
        (W.tells out.new) (came_to result) }
{
    let mut store = load_store(alloc, hasher, disk, clients)?;
    post_loaded(
        alloc, &mut store, group, timestamp, disk, input, out, clients,
    )
}

/// The same of a store that was loaded. After each outcome but `DiskFault` it may be used again;
/// after `Memory` it is to be settled first.
pub fn post_loaded<D: Disk, S: Source, W: Sink, C: Clients>(
    alloc: Global,
    store: &mut Store,
    group: GroupId,
    timestamp: u64,
    disk: &mut D,
    input: &mut S,
    out: &mut W,
    clients: &C,
) -> Result<(), Outcome>
    requires ready { MayExtend (C.meaning clients.now) store.old (D.tells disk.old).files }
    requires timestamp { timestamp ≤ MAX_TIMESTAMP }
    ensures posted { (start : D)
        → WasLoaded (C.meaning clients.now) store.old (D.tells start) (D.tells disk.old)
        → HasPosted (C.meaning clients.now) group timestamp (D.tells start) (D.tells disk.new)
        (S.tells input.old) (S.tells input.new) (W.tells out.old) (W.tells out.new)
        (came_to result) }
    ensures serves { IsServed (C.meaning clients.now) store.old (D.tells disk.old)
        → ServesOn (C.meaning clients.now) store.new (D.tells disk.new) (came_to result) }
    ensures sessions { LeavesSessionsBy store.old store.new (came_to result) }
{
    if !store.state().knows_group(&group) {
        return Err(Outcome::Refused(Refused::UnknownGroup));
    }
    let body = read_body(alloc, input)?;
    let post = plan_post(store, clients, group, timestamp, body)?;
    let PlannedPost { message, id } = post;
    add_entry(
        alloc,
        store,
        Entry::Author(message),
        Some(id),
        Settling::BeforeAndAfter,
        disk,
        out,
        clients,
    )
}

// Reads a body: the whole input, of which no more than 32,769 bytes are read.
fn read_body<S: Source>(alloc: Global, input: &mut S) -> Result<Vec<u8>, Outcome>
    ensures { IsBodyRead (S.tells input.old) (S.tells input.new) result }
{
    let mut body = Vec::new(alloc);
    match read_input(input, MAX_BODY as u64, &mut body) {
        Ok(()) => Ok(body),
        Err(InputFault::TooMuch) => Err(Outcome::Refused(Refused::BodyTooLong)),
        Err(InputFault::ReadFault) => Err(Outcome::ReadFault),
        Err(InputFault::Memory) => Err(Outcome::Memory),
    }
}
