// Commands whose words describe a group: its definition is made first, for which memory may be
// wanting.
ghost use Rattle.std.specs.Prelude.{◌≡◌, ◌≤◌, IfOk};
ghost use Rattle.commands.specs.Reading.{IsDescriptor, IsName};
ghost use Rattle.store_commands.specs.declared.commit.Settling.TheVariants as settling;
ghost use Rattle.store_commands.specs.Entries.{HasAdded};
ghost use Rattle.store_commands.specs.Plans.{group_plan};
ghost use Rattle.store_commands.specs.Serving.{IsServed, LeavesSessionsBy, ServesOn};
ghost use Rattle.sharing_commands.specs.Sayings.{say_plan};
ghost use Rattle.sync_words.specs.Outcomes.{came_to};
ghost use Rattle.node_requests.specs.Requests.{group_named, speech_of};

use outside::{Disk, Sink};
use sharing_commands::{Speech, say_loaded};
use std::alloc::{AllocError, Global};
use store_commands::add_group_loaded;
use sync_ids::{GroupDef, GroupId, MAX_TIMESTAMP};
use sync_rules::Clients;
use sync_store::Store;
use sync_words::Outcome;

/// Adds the group of these words.
pub(crate) fn add_named<D: Disk, W: Sink, C: Clients>(
    alloc: Global,
    store: &mut Store,
    name: &str,
    major: u32,
    descriptor: &str,
    disk: &mut D,
    out: &mut W,
    clients: &C,
) -> Result<(), Outcome>
    requires name { IsName name.now }
    requires descriptor { IsDescriptor descriptor.now }
    requires served { IsServed (C.meaning clients.now) store.old (D.tells disk.old) }
    ensures added { HasAdded (C.meaning clients.now) (λ f. group_plan (C.meaning clients.now) f
        (group_named name.now major descriptor.now)) settling.Before (D.tells disk.old)
        (D.tells disk.new) (W.tells out.old) (W.tells out.new) (came_to result) }
    ensures serves { ServesOn (C.meaning clients.now) store.new (D.tells disk.new)
        (came_to result) }
    ensures sessions { LeavesSessionsBy store.old store.new (came_to result) }
{
    let def = group_of(alloc, name, major, descriptor)?;
    add_group_loaded(alloc, store, def, disk, out, clients)
}

/// Says in a group, at this time, that its author joins the group of these words, or leaves it.
pub(crate) fn say_named<D: Disk, W: Sink, C: Clients>(
    alloc: Global,
    store: &mut Store,
    group: GroupId,
    timestamp: u64,
    join: bool,
    name: &str,
    major: u32,
    descriptor: &str,
    disk: &mut D,
    out: &mut W,
    clients: &C,
) -> Result<(), Outcome>
    requires timestamp { timestamp ≤ MAX_TIMESTAMP }
    requires name { IsName name.now }
    requires descriptor { IsDescriptor descriptor.now }
    requires served { IsServed (C.meaning clients.now) store.old (D.tells disk.old) }
    ensures said { HasAdded (C.meaning clients.now) (say_plan (C.meaning clients.now)
        (speech_of group timestamp join (group_named name.now major descriptor.now)))
        settling.BeforeAndAfter (D.tells disk.old) (D.tells disk.new) (W.tells out.old)
        (W.tells out.new) (came_to result) }
    ensures serves { ServesOn (C.meaning clients.now) store.new (D.tells disk.new)
        (came_to result) }
    ensures sessions { LeavesSessionsBy store.old store.new (came_to result) }
{
    let def = group_of(alloc, name, major, descriptor)?;
    let speech = Speech {
        group,
        timestamp,
        join,
        def,
    };
    say_loaded(alloc, store, speech, disk, out, clients)
}

// The definition of the group of these words.
fn group_of(alloc: Global, name: &str, major: u32, descriptor: &str) -> Result<GroupDef, AllocError>
    requires name { IsName name.now }
    requires descriptor { IsDescriptor descriptor.now }
    ensures { IfOk result (λ def. def ≡ group_named name.now major descriptor.now) }
{
    let name = String::from_str(alloc, name)?;
    let descriptor = descriptor.as_bytes().to_vec(alloc)?;
    match GroupDef::new(name, major, descriptor) {
        Ok(def) => Ok(def),
        Err(_) => unreachable!(),
    }
}
