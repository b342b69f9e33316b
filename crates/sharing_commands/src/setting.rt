// The targets of two people, one after the other.
ghost use Rattle.std.specs.Prelude.{◌≡◌, ◌∷◌, [], ◌++◌, true, is_ok, OnOk};
ghost use Rattle.std.specs.String.{string_bytes};
ghost use Rattle.sync_rules.specs.declared.entries.Entry.TheVariants as entry;
ghost use Rattle.sync_store.specs.Refusals.{group_answer};
ghost use Rattle.store_commands.specs.Commit.{ExtendsBy};
ghost use Rattle.sharing_commands.specs.Adding.{GathersFront, GathersFor, StaysGathering};
ghost use Rattle.sharing_commands.specs.Deeds.{all_batches, all_text, batches_for, deed_batches};
ghost use Rattle.sharing_commands.specs.Deeds.{deed_of, target_id, text_for};

use crate::adding::{add_group, set_level};
use crate::deed::{Deed, deed_line, deed_of};
use client_sharing::Target;
use outside::Disk;
use std::alloc::Global;
use sync_ids::{GroupId, group_id};
use sync_rules::Clients;
use sync_store::Store;
use sync_store::laws::images_stand;
use sync_words::Outcome;

/// Does what each target asks for, over the journal as it then stands, and adds its line.
pub(crate) fn set_all<D: Disk, C: Clients>(
    alloc: Global,
    store: &mut Store,
    contact: u8,
    targets: &[Target],
    disk: &mut D,
    clients: &C,
    to: &mut String,
) -> Result<(), Outcome>
    requires stands { GathersFor (C.meaning clients.now) store.old (D.tells disk.old) contact }
    ensures adds { GathersFront (C.meaning clients.now) store.old store.new (D.tells disk.old)
        (D.tells disk.new) (all_batches (C.meaning clients.now) contact store.old.state.facts
        targets.now) result }
    ensures by { ExtendsBy (D.tells disk.old) (D.tells disk.new) result }
    ensures stands { StaysGathering (C.meaning clients.now) store.new (D.tells disk.new) contact
        result }
    ensures text { OnOk result (string_bytes to.new ≡ string_bytes to.old ++ all_text
        (C.meaning clients.now) contact store.old.state.facts targets.now) }
{
    images_stand();
    'targets: for i in 0..targets.len() {
        set_target(alloc, store, contact, &targets[i], disk, clients, to)?;
    }
    Ok(())
}

// Does what a target asks for, and adds its line.
fn set_target<D: Disk, C: Clients>(
    alloc: Global,
    store: &mut Store,
    contact: u8,
    target: &Target,
    disk: &mut D,
    clients: &C,
    to: &mut String,
) -> Result<(), Outcome>
    requires stands { GathersFor (C.meaning clients.now) store.old (D.tells disk.old) contact }
    ensures adds { GathersFront (C.meaning clients.now) store.old store.new (D.tells disk.old)
        (D.tells disk.new) (batches_for (C.meaning clients.now) contact store.old.state.facts
        target.now) result }
    ensures by { ExtendsBy (D.tells disk.old) (D.tells disk.new) result }
    ensures stands { StaysGathering (C.meaning clients.now) store.new (D.tells disk.new) contact
        result }
    ensures text { OnOk result (string_bytes to.new ≡ string_bytes to.old ++ text_for
        (C.meaning clients.now) contact store.old.state.facts target.now) }
{
    images_stand();
    let group = group_id(&target.def);
    let deed = deed_of(store, clients, contact, &group, target);
    deed_line(alloc, deed, contact, &group, target.level, to)?;
    do_deed(alloc, store, deed, contact, &group, target, disk, clients)
}

// Does what a target asks for.
fn do_deed<D: Disk, C: Clients>(
    alloc: Global,
    store: &mut Store,
    deed: Deed,
    contact: u8,
    group: &GroupId,
    target: &Target,
    disk: &mut D,
    clients: &C,
) -> Result<(), Outcome>
    requires stands { GathersFor (C.meaning clients.now) store.old (D.tells disk.old) contact }
    requires group { group.now ≡ target_id target.now }
    requires deed { deed ≡ deed_of (C.meaning clients.now) contact store.old.state.facts
        target.now }
    ensures adds { GathersFront (C.meaning clients.now) store.old store.new (D.tells disk.old)
        (D.tells disk.new) (deed_batches contact target.now deed) result }
    ensures by { ExtendsBy (D.tells disk.old) (D.tells disk.new) result }
    ensures stands { StaysGathering (C.meaning clients.now) store.new (D.tells disk.new) contact
        result }
{
    images_stand();
    match deed {
        Deed::Nothing => Ok(()),
        Deed::Skip => Ok(()),
        Deed::Keep => Ok(()),
        Deed::Set => set_level(alloc, store, contact, group, target.level, disk, clients),
        Deed::Add => add_target(alloc, store, contact, group, target, disk, clients),
    }
}

// Adds the group of a target, and sets its level.
fn add_target<D: Disk, C: Clients>(
    alloc: Global,
    store: &mut Store,
    contact: u8,
    group: &GroupId,
    target: &Target,
    disk: &mut D,
    clients: &C,
) -> Result<(), Outcome>
    requires stands { GathersFor (C.meaning clients.now) store.old (D.tells disk.old) contact }
    requires group { group.now ≡ target_id target.now }
    requires tested { is_ok (group_answer (C.meaning clients.now) store.old.state.facts
        target.now.def) ≡ true }
    ensures adds { GathersFront (C.meaning clients.now) store.old store.new (D.tells disk.old)
        (D.tells disk.new) ((entry.Group target.now.def ∷ []) ∷ (entry.Level contact group.now
        target.now.level ∷ []) ∷ []) result }
    ensures by { ExtendsBy (D.tells disk.old) (D.tells disk.new) result }
    ensures stands { StaysGathering (C.meaning clients.now) store.new (D.tells disk.new) contact
        result }
{
    add_group(alloc, store, contact, &target.def, disk, clients)?;
    set_level(alloc, store, contact, group, target.level, disk, clients)
}
