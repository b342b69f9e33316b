//! A held message is delivered.
ghost use Rattle.std.specs.Prelude.{◌≡◌, ◌+◌, ◌<◌, ◌≤◌, ◌||◌, true, Some, length, OnOk, OnErr};
ghost use Rattle.sync_rules.specs.declared.limits.TheConstants.{MAX_CONTACTS};
ghost use Rattle.sync_rules.specs.Clients.{Meaning};
ghost use Rattle.sync_rules.specs.Sessions.{is_author};
ghost use Rattle.sync_rules.specs.Steps.{next};
ghost use Rattle.std.specs.Prelude.{None, cond, slice_set};
ghost use Rattle.retry_table.specs.Table.{group_at, rows_of};
ghost use Rattle.journal_state.specs.Delivery.{goes_to, GrowsRoom, HasRowsAtContacts, ReadiesOne, ReadiesMessage};
ghost use Rattle.journal_state.specs.Taking.{moved};
ghost use Rattle.journal_state.specs.Whole.{id_at, KnowsJudgements};

use crate::reserve::in_steps;
use crate::state::State;
use message_graph::Step;
use retry_table::Retry;
use std::alloc::AllocError;
use sync_ids::GroupId;
use sync_rules::{Entry, Level, Origin};
use visibility_table::Levels;

/// Whether a message may be sent to others: it was written here, or its judgement lets it be sent
/// on.
fn is_open(origin: Origin, share: bool) -> bool
    ensures { result ≡ (is_author origin || share) }
{
    match origin {
        Origin::Author => true,
        Origin::From(_) => share,
    }
}

/// Whether a message of the group may go to the contact.
fn goes_to(table: &Levels, group: &GroupId, outgoing: bool, contact: u8) -> bool
    ensures { result ≡ goes_to table.now.levels group.now outgoing contact }
{
    match table.level(contact, group) {
        Level::Shared => outgoing,
        Level::Invisible | Level::Visible => false,
    }
}

/// Makes room for the rows of all numbers below `numbers` at a contact, if a message of the group goes
/// there. Where the rows are there its level is not looked up.
fn reserve_row(
    retry: &mut Retry,
    table: &Levels,
    group: &GroupId,
    outgoing: bool,
    contact: u8,
    numbers: u32,
) -> Result<(), AllocError>
    ensures same { GrowsRoom retry.old retry.new }
    ensures room { OnOk result (goes_to table.now.levels group.now outgoing contact ≡ true
        → numbers ≤ length (rows_of retry.new contact)) }
{
    if retry.has_rows(contact, numbers) || !goes_to(table, group, outgoing, contact) {
        return Ok(());
    }
    retry.reserve(contact, in_steps(numbers), 0)
}

/// Makes room for the rows of all numbers below `numbers` at each contact that is known and that a
/// message goes to.
fn reserve_rows(
    retry: &mut Retry,
    table: &Levels,
    group: &GroupId,
    outgoing: bool,
    numbers: u32,
) -> Result<(), AllocError>
    requires few { table.now.contacts ≤ MAX_CONTACTS }
    ensures same { GrowsRoom retry.old retry.new }
    ensures room { OnOk result (HasRowsAtContacts retry.new (goes_to table.now.levels group.now outgoing)
        table.now.contacts numbers) }
{
    for place in 0..table.contacts() {
        let contact = place as u8;
        reserve_row(retry, table, group, outgoing, contact, numbers)?;
    }
    Ok(())
}

/// Makes room for the release of all messages of numbers below `numbers`.
fn reserve_release(retry: &mut Retry, numbers: u32) -> Result<(), AllocError>
    ensures same { GrowsRoom retry.old retry.new }
    ensures rows { retry.new.rows ≡ retry.old.rows }
    ensures room { OnOk result (numbers ≤ length retry.new.groups) }
{
    retry.reserve_groups(in_steps(numbers))?;
    Ok(())
}

/// Makes a message ready for a contact, if it goes there.
fn ready_one(retry: &mut Retry, contact: u8, n: u32, goes: bool)
    requires { goes ≡ true → n < length (rows_of retry.old contact) }
    ensures readies { ReadiesOne retry.old retry.new contact n goes }
    ensures groups { retry.new.groups ≡ retry.old.groups }
{
    if !goes {
        return;
    }
    retry.ready(contact, n);
}

/// Makes a message ready for each contact that is known and that it goes to.
fn ready_each(retry: &mut Retry, table: &Levels, group: &GroupId, outgoing: bool, n: u32)
    requires few { table.now.contacts ≤ MAX_CONTACTS }
    requires rows { HasRowsAtContacts retry.old (goes_to table.now.levels group.now outgoing)
        table.now.contacts (n + 1) }
    ensures readies { ReadiesMessage retry.old retry.new
        (goes_to table.now.levels group.now outgoing) table.now.contacts n }
    ensures groups { retry.new.groups ≡ retry.old.groups }
{
    for place in 0..table.contacts() {
        let contact = place as u8;
        let goes = goes_to(table, group, outgoing, contact);
        ready_one(retry, contact, n, goes);
    }
}

/// Releases a message in the group of this number, if it may be sent to others.
fn release_one(retry: &mut Retry, n: u32, number: u32, outgoing: bool)
    requires room { n < length retry.old.groups }
    requires new { group_at retry.old n ≡ None }
    ensures { retry.new ≡ record retry.old {
      groups = cond outgoing (slice_set retry.old.groups n (Some number)) retry.old.groups;
    } }
{
    if outgoing {
        retry.release(n, number);
    }
}

/// Makes a message ready for each contact that is known and that it goes to, and releases it in the
/// group of this number, if it may be sent to others.
fn make_ready(
    retry: &mut Retry,
    table: &Levels,
    group: &GroupId,
    number: u32,
    outgoing: bool,
    n: u32,
)
    requires few { table.now.contacts ≤ MAX_CONTACTS }
    requires rows { HasRowsAtContacts retry.old (goes_to table.now.levels group.now outgoing)
        table.now.contacts (n + 1) }
    requires room { n < length retry.old.groups }
    requires new { group_at retry.old n ≡ None }
    ensures readies { ReadiesMessage retry.old retry.new
        (goes_to table.now.levels group.now outgoing) table.now.contacts n }
    ensures groups { retry.new.groups ≡ cond outgoing
        (slice_set retry.old.groups n (Some number)) retry.old.groups }
{
    ready_each(retry, table, group, outgoing, n);
    release_one(retry, n, number, outgoing);
}

impl State {
    /// Delivers the message of this number, which is the next step; how the journal began is not
    /// noted. After an error all is as before.
    pub(crate) fn deliver(&mut self, n: u32) -> Result<(), AllocError>
        requires held { n < length self.old.facts.held }
        requires next { (clients : Meaning)
            × (KnowsJudgements clients self.old
            × (next clients self.old.facts ≡ Some (Entry.Deliver (id_at self.old.facts.held n)))) }
        ensures facts { OnOk result
            (self.new.facts ≡ moved self.old.facts (Entry.Deliver (id_at self.old.facts.held n))) }
        ensures answers { self.new.answers ≡ self.old.answers }
        ensures err { OnErr result (self.new.facts ≡ self.old.facts) }
    {
        let group = self.messages.message(n).group();
        let number = self.graph.group(n);
        let outgoing = is_open(self.messages.origin(n), self.shares[n as usize]);
        let held = self.messages.len();
        // No group has a level for a contact that is not known.
        reserve_rows(&mut self.retry, &self.table, &group, outgoing, held)?;
        reserve_release(&mut self.retry, held)?;
        self.delivered.reserve(1)?;
        self.graph.apply(Step::Deliver(n));
        self.delivered.push(n).unwrap();
        make_ready(&mut self.retry, &self.table, &group, number, outgoing, n);
        Ok(())
    }
}
