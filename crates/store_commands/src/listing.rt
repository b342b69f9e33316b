// What the commands print of a store. Each call appends its lines; it fails only for want of
// memory.
ghost use Rattle.std.specs.Prelude.{◌≡◌, ◌+◌, ◌<◌, ◌≤◌, ◌++◌, length, OnOk, Some, slice_get};
ghost use Rattle.std.specs.List.{flat_map};
ghost use Rattle.std.specs.String.{string_bytes};
ghost use Rattle.sync_rules.specs.Facts.{Held, Id, Known, held_at};
ghost use Rattle.store_commands.specs.Shown.{contact_levels, delivered_line, group_level};
ghost use Rattle.store_commands.specs.Shown.{group_line, inbox_from, inbox_of, level_line, levels_below};
ghost use Rattle.store_commands.specs.Shown.{listing_text, message_line, show_text};

use std::alloc::{AllocError, Global};
use sync_rules::{Level, View};
use sync_store::Store;
use sync_words::{
    contacts_line, inbox_line, known_group_line, level_line, sessions_line, state_line,
};

/// A listing of a store.
#[derive(Clone, Copy, Debug, PartialEq, Eq)]
pub enum Listing {
    /// `show`: contacts, groups, levels, messages with their states, and the number of sessions.
    Store,
    /// `inbox`: the delivered messages in the order of their delivery.
    Inbox,
    /// `inbox FROM COUNT`: of these, those at the places from the first number on, counted from 0,
    /// and at most as many as the second says.
    InboxFrom(u32, u32),
}

/// All that a listing prints.
pub fn add_listing(
    alloc: Global,
    store: &Store,
    listing: Listing,
    to: &mut String,
) -> Result<(), AllocError>
    ensures { OnOk result (string_bytes to.new ≡ string_bytes to.old ++ listing_text listing
        store.now.state.facts) }
{
    match listing {
        Listing::Store => add_show(alloc, store, to),
        Listing::Inbox => add_inbox(alloc, store, to),
        Listing::InboxFrom(from, count) => add_inbox_from(alloc, store, from, count, to),
    }
}

// All that `show` prints.
fn add_show(alloc: Global, store: &Store, to: &mut String) -> Result<(), AllocError>
    ensures { OnOk result (string_bytes to.new ≡ string_bytes to.old ++ show_text
        store.now.state.facts) }
{
    contacts_line(store.contacts(), to)?;
    add_groups(alloc, store, to)?;
    add_levels(alloc, store, to)?;
    add_messages(alloc, store, to)?;
    sessions_line(store.sessions(), to)
}

// The groups.
fn add_groups(alloc: Global, store: &Store, to: &mut String) -> Result<(), AllocError>
    ensures { OnOk result (string_bytes to.new ≡ string_bytes to.old ++ flat_map group_line
        store.now.state.facts.groups) }
{
    'groups: for n in 0..store.groups() {
        add_group(alloc, store, n, to)?;
    }
    Ok(())
}

fn add_group(alloc: Global, store: &Store, n: u32, to: &mut String) -> Result<(), AllocError>
    requires { n < length store.now.state.facts.groups }
    ensures { OnOk result ((g : Known) → slice_get store.now.state.facts.groups n ≡ Some g
        → string_bytes to.new ≡ string_bytes to.old ++ group_line g) }
{
    let id = store.group_id_at(n);
    known_group_line(alloc, &id, store.group_def(n), to)
}

// The levels that are not Invisible.
fn add_levels(alloc: Global, store: &Store, to: &mut String) -> Result<(), AllocError>
    ensures { OnOk result (string_bytes to.new ≡ string_bytes to.old ++ levels_below
        store.now.state.facts store.now.state.facts.contacts) }
{
    'contacts: for contact in 0..store.contacts() {
        add_contact_levels(alloc, store, contact as u8, to)?;
    }
    Ok(())
}

// Those of a contact.
fn add_contact_levels(
    alloc: Global,
    store: &Store,
    contact: u8,
    to: &mut String,
) -> Result<(), AllocError>
    ensures { OnOk result (string_bytes to.new ≡ string_bytes to.old ++ contact_levels
        store.now.state.facts contact) }
{
    'groups: for n in 0..store.groups() {
        add_level(alloc, store, contact, n, to)?;
    }
    Ok(())
}

fn add_level(
    alloc: Global,
    store: &Store,
    contact: u8,
    n: u32,
    to: &mut String,
) -> Result<(), AllocError>
    requires { n < length store.now.state.facts.groups }
    ensures { OnOk result ((g : Known) → slice_get store.now.state.facts.groups n ≡ Some g
        → string_bytes to.new ≡ string_bytes to.old ++ group_level store.now.state.facts contact
        g) }
{
    let group = store.group_id_at(n);
    match store.level(contact, &group) {
        Level::Invisible => Ok(()),
        Level::Visible => level_line(alloc, contact, &group, Level::Visible, to),
        Level::Shared => level_line(alloc, contact, &group, Level::Shared, to),
    }
}

// The messages, in order of arrival.
fn add_messages(alloc: Global, store: &Store, to: &mut String) -> Result<(), AllocError>
    ensures { OnOk result (string_bytes to.new ≡ string_bytes to.old ++ flat_map
        (message_line store.now.state.facts) store.now.state.facts.held) }
{
    'messages: for n in 0..store.held() {
        add_message(alloc, store, n, to)?;
    }
    Ok(())
}

fn add_message(alloc: Global, store: &Store, n: u32, to: &mut String) -> Result<(), AllocError>
    requires { n < length store.now.state.facts.held }
    ensures { OnOk result ((h : Held) → slice_get store.now.state.facts.held n ≡ Some h
        → string_bytes to.new ≡ string_bytes to.old ++ message_line store.now.state.facts h) }
{
    let id = store.id_at(n);
    let group = store.message(n).group();
    state_line(alloc, &id, &group, store.fate(n), to)
}

// All that `inbox` prints.
fn add_inbox(alloc: Global, store: &Store, to: &mut String) -> Result<(), AllocError>
    ensures { OnOk result (string_bytes to.new ≡ string_bytes to.old ++ inbox_of
        store.now.state.facts) }
{
    'delivered: for k in 0..store.delivered() {
        add_delivered(alloc, store, k, to)?;
    }
    Ok(())
}

// What `inbox FROM COUNT` prints.
fn add_inbox_from(
    alloc: Global,
    store: &Store,
    from: u32,
    count: u32,
    to: &mut String,
) -> Result<(), AllocError>
    ensures { OnOk result (string_bytes to.new ≡ string_bytes to.old ++ inbox_from
        store.now.state.facts from count) }
{
    let shown = count.min(store.delivered().saturating_sub(from));
    'delivered: for k in 0..shown {
        add_delivered(alloc, store, from + k, to)?;
    }
    Ok(())
}

// The k-th of the delivered messages.
fn add_delivered(alloc: Global, store: &Store, k: u32, to: &mut String) -> Result<(), AllocError>
    requires { k < length store.now.state.facts.delivered }
    ensures { OnOk result ((id : Id) → slice_get store.now.state.facts.delivered k ≡ Some id
        → string_bytes to.new ≡ string_bytes to.old ++ delivered_line
        (held_at store.now.state.facts.held id)) }
{
    let n = store.delivered_at(k);
    let id = store.id_at(n);
    let message = store.message(n);
    let group = message.group();
    let len = message.body().len() as u32;
    inbox_line(
        alloc,
        &id,
        &group,
        message.timestamp(),
        store.origin(n),
        len,
        to,
    )?;
    Ok(())
}
