//! The plan of a brief account: its items.
ghost use Rattle.std.specs.Prelude.{◌≡◌, ◌^◌, ◌-◌, ◌<◌, IfOk, OnOk, length, min, not, slice_get};
ghost use Rattle.sync_rules.specs.Clients.{Meaning};
ghost use Rattle.sync_rules.specs.Facts.{Facts, is_no_row, row_at, wanted_from};
ghost use Rattle.brief_account.specs.Account.{told_of};
ghost use Rattle.brief_account.specs.Brief.{contact_entries, group_entries, head_entries};
ghost use Rattle.brief_account.specs.Brief.{level_entries, levels_of, peer_entries, row_entries};
ghost use Rattle.brief_account.specs.Brief.{want_entries};
ghost use Rattle.journal_state.specs.Telling.{TellsWithin, told_entries};
ghost use Rattle.journal_compaction.specs.Items.{AddsItems, AreItems, id_at, is_alone, is_peer};
ghost use Rattle.journal_compaction.specs.Items.{is_told, is_visible, item_told};
ghost use Rattle.journal_compaction.specs.Planning.{AreItemsKnown, IsPlan, plan_len};

use crate::items::Item;
use crate::paging::items_len;
use journal_state::{State, Told};
use std::alloc::{AllocError, Global};
use sync_rules::{Level, MAX_ROWS, MAX_STEPS, View};

/// The items of a brief account: how it begins, what it tells of the messages, and the rows and
/// wanted ids.
#[derive(Drop)]
pub(crate) struct Plan {
    pub(crate) head: Vec<Item>,
    pub(crate) told: Vec<Item>,
    pub(crate) peers: Vec<Item>,
}

impl Plan {
    /// The plan of a state, where this is told of its messages. It fails only for want of memory.
    pub(crate) fn of(alloc: Global, state: &State, told: &[Told]) -> Result<Plan, AllocError>
        requires { TellsWithin (length state.now.facts.held) told.now }
        ensures { (clients : Meaning)
            → told_entries state.now.facts.held told.now ≡ told_of clients state.now.facts
            → IfOk result (IsPlan clients state.now.facts) }
    {
        let head = plan_head(alloc, state)?;
        let told = plan_told(alloc, told)?;
        let peers = plan_peers(alloc, state)?;
        Ok(Plan { head, told, peers })
    }

    /// Where a journal with this account ends, and the room behind it for the steps that are left;
    /// the number stands still at 2^64 - 1.
    pub(crate) fn len(&self, state: &State) -> u64
        requires { AreItemsKnown state.now.facts self.now }
        ensures { result ≡ min (plan_len state.now.facts self.now) (2 ^ 64 - 1) }
    {
        let head = items_len(state, self.head.as_slice(), MAX_STEPS);
        let told = items_len(state, self.told.as_slice(), MAX_STEPS);
        let peers = items_len(state, self.peers.as_slice(), MAX_ROWS);
        let room = 10 * state.left();
        head.saturating_add(15)
            .saturating_add(told)
            .saturating_add(peers)
            .saturating_add(room)
    }
}

fn plan_head(alloc: Global, state: &State) -> Result<Vec<Item>, AllocError>
    ensures { IfOk result (λ v. AreItems state.now.facts is_alone v.items
        (head_entries state.now.facts)) }
{
    let mut items = Vec::new(alloc);
    items.push(Item::Brief)?;
    add_contacts(state, &mut items)?;
    add_groups(state, &mut items)?;
    add_levels(state, &mut items)?;
    Ok(items)
}

fn add_contacts(state: &State, items: &mut Vec<Item>) -> Result<(), AllocError>
    ensures { OnOk result (AddsItems state.now.facts is_alone items.old.items items.new.items
        (contact_entries state.now.facts.contacts)) }
{
    'contacts: for contact in 0..state.contacts() {
        items.push(Item::Contact(contact as u8))?;
    }
    Ok(())
}

fn add_groups(state: &State, items: &mut Vec<Item>) -> Result<(), AllocError>
    ensures { OnOk result (AddsItems state.now.facts is_alone items.old.items items.new.items
        (group_entries state.now.facts.groups)) }
{
    'groups: for n in 0..state.groups() {
        items.push(Item::Group(n))?;
    }
    Ok(())
}

fn add_levels(state: &State, items: &mut Vec<Item>) -> Result<(), AllocError>
    ensures { OnOk result (AddsItems state.now.facts is_alone items.old.items items.new.items
        (level_entries state.now.facts.levels state.now.facts.groups state.now.facts.contacts)) }
{
    'contacts: for contact in 0..state.contacts() {
        add_levels_of(state, contact as u8, items)?;
    }
    Ok(())
}

fn add_levels_of(state: &State, contact: u8, items: &mut Vec<Item>) -> Result<(), AllocError>
    ensures { OnOk result (AddsItems state.now.facts is_alone items.old.items items.new.items
        (levels_of state.now.facts.levels contact state.now.facts.groups)) }
{
    'groups: for n in 0..state.groups() {
        if is_visible(state, contact, n) {
            items.push(Item::Level(contact, n))?;
        }
    }
    Ok(())
}

/// Whether the level of a group for a contact is not Invisible.
fn is_visible(state: &State, contact: u8, n: u32) -> bool
    requires { n < length state.now.facts.groups }
    ensures { result ≡ is_visible state.now.facts contact
        (slice_get state.now.facts.groups n) }
{
    match state.level(contact, &state.group_id_at(n)) {
        Level::Invisible => false,
        Level::Visible | Level::Shared => true,
    }
}

fn plan_told(alloc: Global, told: &[Told]) -> Result<Vec<Item>, AllocError>
    ensures { (f : Facts) → TellsWithin (length f.held) told.now
        → IfOk result (λ v. AreItems f is_told v.items (told_entries f.held told.now)) }
{
    let mut items = Vec::new(alloc);
    'told: for one in told {
        items.push(item_told(*one))?;
    }
    Ok(items)
}

fn item_told(one: Told) -> Item
    ensures { result ≡ item_told one }
{
    match one {
        Told::Kept(n) => Item::Kept(n),
        Told::Judged(n) => Item::Judged(n),
        Told::Deliver(n) => Item::Deliver(n),
        Told::Invalid(n) => Item::Invalid(n),
    }
}

fn plan_peers(alloc: Global, state: &State) -> Result<Vec<Item>, AllocError>
    ensures { IfOk result (λ v. AreItems state.now.facts is_peer v.items
        (peer_entries state.now.facts state.now.facts.contacts)) }
{
    let mut items = Vec::new(alloc);
    'contacts: for contact in 0..state.contacts() {
        add_rows(state, contact as u8, &mut items)?;
        add_wants(state, contact as u8, &mut items)?;
    }
    Ok(items)
}

fn add_rows(state: &State, contact: u8, items: &mut Vec<Item>) -> Result<(), AllocError>
    ensures { OnOk result (AddsItems state.now.facts is_peer items.old.items items.new.items
        (row_entries state.now.facts.rows contact state.now.facts.held)) }
{
    'rows: for n in 0..state.held() {
        if has_row(state, contact, n) {
            items.push(Item::Row(contact, n))?;
        }
    }
    Ok(())
}

/// Whether something is kept of a message for a contact.
fn has_row(state: &State, contact: u8, n: u32) -> bool
    requires { n < length state.now.facts.held }
    ensures { result ≡ not (is_no_row (row_at state.now.facts.rows contact
        (id_at state.now.facts n))) }
{
    let tried = state.tried(contact, n);
    tried.seen || tried.owed || tried.asked || tried.tries != 0 || tried.expiry != 0
}

fn add_wants(state: &State, contact: u8, items: &mut Vec<Item>) -> Result<(), AllocError>
    ensures { OnOk result (AddsItems state.now.facts is_peer items.old.items items.new.items
        (want_entries contact (wanted_from state.now.facts.wanted contact))) }
{
    'wants: for n in 0..state.wanted_count(contact) {
        items.push(Item::Want(contact, n))?;
    }
    Ok(())
}
