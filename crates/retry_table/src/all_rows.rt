//! The rows of all contacts, and the group in which each message was released. What is said of a
//! whole group for a contact costs a note; the contact's queues are brought in order later.
ghost use Rattle.std.specs.Prelude.{◌≡◌, ◌+◌, ◌-◌, ◌^◌, ◌<◌, ◌≤◌, ◌++◌, [], ℕ, IfOk, OnOk, OnErr};
ghost use Rattle.std.specs.Prelude.{None, Some, length, nat_le, replicate, slice_index_or, slice_set};
ghost use Rattle.retry_table.specs.Due.{message_in, offers_in, owed_in, sooner_in};
ghost use Rattle.retry_table.specs.Due.{sooner_offers_in};
ghost use Rattle.std.specs.List.{AllByRecursion};
ghost use Rattle.sync_rules.specs.declared.limits.TheConstants.{MAX_CONTACTS};
ghost use Rattle.retry_table.specs.Contacts.{IsBlank};
ghost use Rattle.retry_table.specs.Table.{kept_in, rows_at, with_numbers, with_ready};
ghost use Rattle.retry_table.specs.Turns.{as_said, word_of};
ghost use Rattle.retry_table.specs.Table.{with_rows};

use crate::contact_rows::{ContactRows, Released, Turn};
use crate::rows::KeptRow;
use std::alloc::{AllocError, Global};
use std::marker::Model;
use sync_rules::{MAX_CONTACTS, Mode};

/// The rows of all contacts. Contracts see for each contact the list of what is kept, with what was
/// said since, and of each message the group in which it was released.
#[derive(Drop)]
pub(crate) struct AllRows {
    contacts: Vec<ContactRows>,
    released: Vec<Option<Released>>,
    count: u32,
}

impl Model for AllRows {
    ghost use Rattle.std.specs.Prelude.{map};
    ghost use Rattle.retry_table.specs.Table.{RowsTable};
    ghost use Rattle.retry_table.specs.Turns.{group_of, shown};
    ghost use Rattle.retry_table.specs.Contacts.{AreContacts};

    ghost Value = { RowsTable };

    ghost view = { λ t. record {
      rows = map (λ c. shown t.released.items c.turns.entries c.queues) t.contacts.items;
      groups = map group_of t.released.items;
    } };

    ghost invariant = { λ t. AreContacts t.contacts.items t.released.items t.count };
}

/// The rows of all contacts: none.
fn no_contacts(alloc: Global) -> Result<Vec<ContactRows>, AllocError>
    ensures none { IfOk result (λ v. AllByRecursion IsBlank v.items) }
    ensures len { IfOk result (λ v. length v.items ≡ MAX_CONTACTS) }
{
    let mut contacts = Vec::new(alloc);
    for _i in 0..MAX_CONTACTS {
        contacts.push(ContactRows::new(alloc)?)?;
    }
    Ok(contacts)
}

impl AllRows {
    /// No rows, and nothing released.
    pub(crate) fn new(alloc: Global) -> Result<AllRows, AllocError>
        ensures rows { IfOk result (λ t. (contact : ℕ) → rows_at t contact ≡ []) }
        ensures many { IfOk result (λ t. length t.rows ≡ MAX_CONTACTS) }
        ensures groups { IfOk result (λ t. t.groups ≡ []) }
    {
        let contacts = no_contacts(alloc)?;
        Ok(AllRows {
            contacts,
            released: Vec::new(alloc),
            count: 0,
        })
    }

    /// Makes rows of the contact for all numbers below this one. It takes memory; after an error
    /// all is as before.
    pub(crate) fn reserve(&mut self, contact: u8, numbers: u32) -> Result<(), AllocError>
        ensures ok { OnOk result (self.new ≡ with_rows contact
            (with_numbers numbers (rows_at self.old contact)) self.old) }
        ensures err { OnErr result (self.new ≡ self.old) }
    {
        self.contacts[contact as usize].reserve(numbers)?;
        Ok(())
    }

    /// Whether a contact has rows for all numbers below this one.
    pub(crate) fn has_rows(&self, contact: u8, numbers: u32) -> bool
        ensures { result ≡ nat_le numbers (length (rows_at self.now contact)) }
    {
        numbers as usize <= self.contacts[contact as usize].queues.len()
    }

    /// Makes room for the release of all messages below this number. It takes memory; after an
    /// error all is as before.
    pub(crate) fn reserve_groups(&mut self, numbers: u32) -> Result<(), AllocError>
        ensures ok { OnOk result (self.new ≡ record self.old {
          groups = self.old.groups ++ replicate (numbers - length self.old.groups) None;
        }) }
        ensures err { OnErr result (self.new ≡ self.old) }
    {
        let places = numbers as usize;
        if places > self.released.len() {
            self.released.resize(places, None)?;
        }
        Ok(())
    }

    /// Releases the message of this number in its group.
    pub(crate) fn release(&mut self, n: u32, group: u32)
        requires room { n < length self.old.groups }
        requires new { slice_index_or self.old.groups n None ≡ None }
        ensures { self.new ≡ record self.old { groups = slice_set self.old.groups n (Some group) } }
    {
        let place = self.count;
        self.released[n as usize] = Some(Released { group, place });
        self.count += 1;
    }

    /// What is kept of a message, also where there is no row, but for whether it is ready.
    pub(crate) fn row(&self, contact: u8, n: u32) -> KeptRow
        ensures { result.row ≡ (kept_in (rows_at self.now contact) n).row }
    {
        self.contacts[contact as usize].queues.get(n as usize)
    }

    /// Keeps this of a message but for whether it is ready, which stays.
    pub(crate) fn put(&mut self, contact: u8, n: u32, row: KeptRow)
        requires { n < length (rows_at self.old contact) }
        ensures { self.new ≡ with_rows contact (slice_set (rows_at self.old contact) n
            (record (kept_in (rows_at self.old contact) n) { row = row.row })) self.old }
    {
        self.contacts[contact as usize].put(n as usize, row);
    }

    /// Says of one message whether it is ready.
    pub(crate) fn set_ready(&mut self, contact: u8, n: u32, ready: bool)
        requires { n < length (rows_at self.old contact) }
        ensures { self.new ≡ with_rows contact (slice_set (rows_at self.old contact) n
            (with_ready ready (kept_in (rows_at self.old contact) n))) self.old }
    {
        let released = self.released.as_slice();
        self.contacts[contact as usize].set_ready(released, n as usize, ready);
    }

    /// Says of all messages that were released in a group whether they are ready.
    pub(crate) fn set_group(&mut self, contact: u8, group: u32, ready: bool)
        requires { (n : ℕ) → slice_index_or self.old.groups n None ≡ Some group
            → n < length (rows_at self.old contact) }
        ensures { self.new ≡ with_rows contact
            (as_said (word_of self.old.groups group ready) 0 (rows_at self.old contact)) self.old }
    {
        let before = self.count;
        let turn = Turn {
            shared: ready,
            before,
        };
        let released = self.released.as_slice();
        self.contacts[contact as usize].say(released, group, turn);
    }

    /// Brings the contact's queues in order. Nothing that is seen changes.
    pub(crate) fn bring(&mut self, contact: u8)
        ensures { self.new ≡ self.old }
    {
        let released = self.released.as_slice();
        self.contacts[contact as usize].bring(released);
    }

    /// The numbers that wait for our acknowledgement, at most 1,536.
    pub(crate) fn owed(&self, contact: u8) -> Result<Vec<u32>, AllocError>
        ensures { IfOk result (λ v. v.items ≡ owed_in (rows_at self.now contact)) }
    {
        self.contacts[contact as usize].queues.owed()
    }

    /// The numbers to be offered, at most 1,536.
    pub(crate) fn due_offers(&self, contact: u8, now: u64) -> Result<Vec<u32>, AllocError>
        ensures { IfOk result (λ v. v.items ≡ offers_in now (rows_at self.now contact)) }
    {
        self.contacts[contact as usize].due_offers(self.released.as_slice(), now)
    }

    /// The number of the message to be sent.
    pub(crate) fn due_message(&self, contact: u8, mode: Mode, now: u64) -> Option<u32>
        ensures { result ≡ message_in mode now (rows_at self.now contact) }
    {
        self.contacts[contact as usize].due_message(self.released.as_slice(), mode, now)
    }

    /// The number of the message to be sent before its time.
    pub(crate) fn sooner_message(&self, contact: u8, latency: u32, now: u64) -> Option<u32>
        ensures { result ≡ sooner_in latency now (rows_at self.now contact) }
    {
        let released = self.released.as_slice();
        self.contacts[contact as usize].sooner_message(released, latency, now)
    }

    /// The numbers to be offered before their time, at most 1,536.
    pub(crate) fn sooner_offers(
        &self,
        contact: u8,
        latency: u32,
        now: u64,
    ) -> Result<Vec<u32>, AllocError>
        ensures { IfOk result (λ v. v.items ≡ sooner_offers_in latency now
            (rows_at self.now contact)) }
    {
        let released = self.released.as_slice();
        self.contacts[contact as usize].sooner_offers(released, latency, now)
    }
}
