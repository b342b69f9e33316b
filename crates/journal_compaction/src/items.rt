//! What is told in a brief account, item by item.
ghost use Rattle.std.specs.Prelude.{◌≡◌, ◌++◌, false, length, OnErr, OnOk};
ghost use Rattle.entry_codec.specs.Spelling.{IsEntry, MayBeWritten};
ghost use Rattle.journal_compaction.specs.Items.{IsItem, bytes_of, entry_of, is_alone, is_lent};

use entry_codec::{group_len, kept_len, short_len, write_group, write_kept, write_short};
use journal_migration::FirstNames;
use journal_state::State;
use std::alloc::AllocError;
use sync_rules::{Entry, View};

/// What stands for an entry of a brief account. It names by numbers what the state has, so a plan
/// of the account needs little memory.
#[derive(Clone, Copy)]
pub(crate) enum Item {
    /// How many sessions have begun.
    Brief,
    /// The contact of this number.
    Contact(u8),
    /// The group of this number.
    Group(u32),
    /// The level of the group of this number for this contact.
    Level(u8, u32),
    /// The held message of this arrival number.
    Kept(u32),
    /// It is judged.
    Judged(u32),
    /// It is handed to its client.
    Deliver(u32),
    /// It is invalid.
    Invalid(u32),
    /// What is kept of it for this contact.
    Row(u8, u32),
    /// Of the ids wanted from this contact the one of this place.
    Want(u8, u32),
}

impl Item {
    /// Whether its entry is a batch of its own.
    pub(crate) fn is_alone(self) -> bool
        ensures { result ≡ is_alone self }
    {
        match self {
            Item::Judged(_) | Item::Deliver(_) | Item::Invalid(_) => false,
            Item::Row(_, _) | Item::Want(_, _) => false,
            Item::Brief | Item::Contact(_) | Item::Group(_) | Item::Level(_, _) => true,
            Item::Kept(_) => true,
        }
    }
}

/// The entry of an item that is not written from a reference.
fn entry_of(state: &State, item: Item) -> Entry
    requires there { IsItem state.now.facts item }
    requires owned { is_lent item ≡ false }
    ensures value { result ≡ entry_of state.now.facts item }
    ensures written { MayBeWritten result }
{
    match item {
        Item::Brief => Entry::Brief(state.sessions()),
        Item::Contact(contact) => Entry::Contact(contact),
        Item::Level(contact, n) => {
            let group = state.group_id_at(n);
            Entry::Level(contact, group, state.level(contact, &group))
        }
        Item::Judged(n) => Entry::Judged(state.id_at(n)),
        Item::Deliver(n) => Entry::Deliver(state.id_at(n)),
        Item::Invalid(n) => Entry::Invalid(state.id_at(n)),
        Item::Row(contact, n) => Entry::Tried(state.tried(contact, n)),
        Item::Want(contact, n) => Entry::Want(contact, state.retry().wanted_at(contact, n)),
        Item::Group(_) | Item::Kept(_) => unreachable!(),
    }
}

/// How many bytes an item's entry is written in.
pub(crate) fn item_len(state: &State, item: Item) -> usize
    requires { IsItem state.now.facts item }
    ensures { result ≡ length (bytes_of state.now.facts item) }
{
    match item {
        Item::Group(n) => group_len(state.group_def(n)),
        Item::Kept(n) => kept_len(state.message(n)),
        _ => short_len(&entry_of(state, item)),
    }
}

/// Appends what an item's entry is written as. It fails only for want of memory, and then leaves
/// the bytes as they were.
pub(crate) fn append_item(state: &State, item: Item, to: &mut Vec<u8>) -> Result<(), AllocError>
    requires { IsItem state.now.facts item }
    ensures ok { OnOk result (to.new.items ≡ to.old.items ++ bytes_of state.now.facts item) }
    ensures within { OnOk result (IsEntry (entry_of state.now.facts item)) }
    ensures err { OnErr result (to.new.items ≡ to.old.items) }
{
    match item {
        Item::Group(n) => write_group(state.group_def(n), to),
        Item::Kept(n) => write_kept(state.origin(n), state.message(n), to),
        _ => append_owned(state, item, to),
    }
}

/// The same of an item that is not written from a reference.
fn append_owned(state: &State, item: Item, to: &mut Vec<u8>) -> Result<(), AllocError>
    requires there { IsItem state.now.facts item }
    requires owned { is_lent item ≡ false }
    ensures ok { OnOk result (to.new.items ≡ to.old.items ++ bytes_of state.now.facts item) }
    ensures within { OnOk result (IsEntry (entry_of state.now.facts item)) }
    ensures err { OnErr result (to.new.items ≡ to.old.items) }
{
    let names = FirstNames {
        state,
        count: state.held(),
    };
    write_short(&entry_of(state, item), &names, to)
}
