// Entries that a settled store gathers, each a batch of its own.
ghost use Rattle.std.specs.Prelude.{◌≡◌, ◌∷◌, [], false, true, is_ok, is_some, OnOk};
ghost use Rattle.sync_ids.specs.Ids.{group_id_of};
ghost use Rattle.sync_rules.specs.Allows.{is_account_kind, is_settling_kind};
ghost use Rattle.sync_rules.specs.Facts.{group_at};
ghost use Rattle.sync_rules.specs.Legal.{Allowed};
ghost use Rattle.sync_rules.specs.declared.entries.Entry.TheVariants as entry;
ghost use Rattle.sync_store.specs.Groups.{IsGathering};
ghost use Rattle.sync_store.specs.Refusals.{group_answer};
ghost use Rattle.store_commands.specs.Commit.{ExtendsBy};
ghost use Rattle.sharing_commands.specs.Adding.{GathersFront, GathersFor, StaysGathering};

use outside::Disk;
use std::alloc::Global;
use sync_ids::{GroupDef, GroupId};
use sync_rules::growth::{groups, steps};
use sync_rules::{Batch, Clients, Entry, Level};
use sync_store::laws::images_stand;
use sync_store::{Store, StoreFault};
use sync_words::Outcome;

// Takes a batch into the store; its frame waits.
fn gather<D: Disk, C: Clients>(
    store: &mut Store,
    batch: Batch,
    disk: &mut D,
    clients: &C,
) -> Result<(), Outcome>
    requires gathering { IsGathering (C.meaning clients.now) store.old (D.tells disk.old).files }
    requires allowed { Allowed (C.meaning clients.now) store.old.state.facts batch }
    requires kind { is_settling_kind batch ≡ false }
    requires plain { is_account_kind batch ≡ false }
    ensures adds { GathersFront (C.meaning clients.now) store.old store.new (D.tells disk.old)
        (D.tells disk.new) (batch ∷ []) result }
    ensures by { ExtendsBy (D.tells disk.old) (D.tells disk.new) result }
    ensures gathering { store.new.closed ≡ false
        → IsGathering (C.meaning clients.now) store.new (D.tells disk.new).files }
{
    match store.gather_known(disk, clients, batch, None) {
        Ok(()) => Ok(()),
        Err(StoreFault::Full) => Err(Outcome::Full),
        Err(StoreFault::Memory) => Err(Outcome::Memory),
        Err(StoreFault::DiskFault) => Err(Outcome::DiskFault),
        Err(StoreFault::Closed) => unreachable!(),
    }
}

/// Sets the level of a known group for a contact; the frame of its batch waits.
pub(crate) fn set_level<D: Disk, C: Clients>(
    alloc: Global,
    store: &mut Store,
    contact: u8,
    group: &GroupId,
    level: Level,
    disk: &mut D,
    clients: &C,
) -> Result<(), Outcome>
    requires stands { GathersFor (C.meaning clients.now) store.old (D.tells disk.old) contact }
    requires known { is_some (group_at store.old.state.facts.groups group.now) ≡ true }
    ensures adds { GathersFront (C.meaning clients.now) store.old store.new (D.tells disk.old)
        (D.tells disk.new) ((entry.Level contact group.now level ∷ []) ∷ []) result }
    ensures by { ExtendsBy (D.tells disk.old) (D.tells disk.new) result }
    ensures stands { StaysGathering (C.meaning clients.now) store.new (D.tells disk.new) contact
        result }
{
    images_stand();
    steps();
    let batch = Batch::single(alloc, Entry::Level(contact, *group, level))?;
    gather(store, batch, disk, clients)
}

/// Adds a group; the frame of its batch waits.
pub(crate) fn add_group<D: Disk, C: Clients>(
    alloc: Global,
    store: &mut Store,
    contact: u8,
    def: &GroupDef,
    disk: &mut D,
    clients: &C,
) -> Result<(), Outcome>
    requires stands { GathersFor (C.meaning clients.now) store.old (D.tells disk.old) contact }
    requires tested { is_ok (group_answer (C.meaning clients.now) store.old.state.facts def.now)
        ≡ true }
    ensures adds { GathersFront (C.meaning clients.now) store.old store.new (D.tells disk.old)
        (D.tells disk.new) ((entry.Group def.now ∷ []) ∷ []) result }
    ensures by { ExtendsBy (D.tells disk.old) (D.tells disk.new) result }
    ensures stands { StaysGathering (C.meaning clients.now) store.new (D.tells disk.new) contact
        result }
    ensures known { OnOk result (is_some (group_at store.new.state.facts.groups
        (group_id_of def.now)) ≡ true) }
{
    images_stand();
    groups();
    store.state().show_sound();
    let def = def.copy(alloc)?;
    let batch = Batch::single(alloc, Entry::Group(def))?;
    gather(store, batch, disk, clients)
}
