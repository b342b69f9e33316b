// What a target asks of a journal.
ghost use Rattle.std.specs.Prelude.{◌≡◌, ◌++◌, OnOk};
ghost use Rattle.std.specs.String.{string_bytes};
ghost use Rattle.sharing_commands.specs.Deeds.{deed_of, deed_text, same_level, skipped_group_text};
ghost use Rattle.sharing_commands.specs.Deeds.{target_id};

use client_sharing::Target;
use std::alloc::{AllocError, Global};
use sync_ids::GroupId;
use sync_rules::{Clients, Level, View};
use sync_store::Store;
use sync_words::level_line;

/// What the target of a group asks of a journal.
#[derive(Clone, Copy, Debug, PartialEq, Eq)]
pub(crate) enum Deed {
    /// Nothing: the group is not known, and its level would be Invisible.
    Nothing,
    /// Nothing, but it is said: the group is not known, and can't be added.
    Skip,
    /// Nothing: the level is the target's.
    Keep,
    /// The level, which is another one.
    Set,
    /// The group and its level.
    Add,
}

/// What a target, whose group has this id, asks of the journal of a store.
pub(crate) fn deed_of<C: Clients>(
    store: &Store,
    clients: &C,
    contact: u8,
    group: &GroupId,
    target: &Target,
) -> Deed
    requires { group.now ≡ target_id target.now }
    ensures { result ≡ deed_of (C.meaning clients.now) contact store.now.state.facts target.now }
{
    if store.state().knows_group(group) {
        return if same_level(store.level(contact, group), target.level) {
            Deed::Keep
        } else {
            Deed::Set
        };
    }
    match target.level {
        Level::Invisible => Deed::Nothing,
        Level::Visible | Level::Shared => match store.may_group(clients, &target.def) {
            Ok(_) => Deed::Add,
            Err(_) => Deed::Skip,
        },
    }
}

// Whether two levels are the same.
fn same_level(one: Level, other: Level) -> bool
    ensures { result ≡ same_level one other }
{
    match (one, other) {
        (Level::Invisible, Level::Invisible)
        | (Level::Visible, Level::Visible)
        | (Level::Shared, Level::Shared) => true,
        _ => false,
    }
}

/// A group that is agreed on and can't be added. It fails only for want of memory, and then nothing
/// is said of what was appended.
pub fn skipped_group_line(alloc: Global, group: &GroupId, to: &mut String) -> Result<(), AllocError>
    ensures { OnOk result (string_bytes to.new ≡ string_bytes to.old ++ skipped_group_text
        group.now) }
{
    let group = group.to_hex(alloc)?;
    writeln!(to, "skipped {group}")
}

/// The line of a deed.
pub(crate) fn deed_line(
    alloc: Global,
    deed: Deed,
    contact: u8,
    group: &GroupId,
    level: Level,
    to: &mut String,
) -> Result<(), AllocError>
    ensures { OnOk result (string_bytes to.new ≡ string_bytes to.old ++ deed_text contact group.now
        level deed) }
{
    match deed {
        Deed::Nothing => Ok(()),
        Deed::Skip => skipped_group_line(alloc, group, to),
        Deed::Keep | Deed::Set | Deed::Add => level_line(alloc, contact, group, level, to),
    }
}
