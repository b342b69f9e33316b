//! `Retry`.
ghost use Rattle.std.specs.Prelude.{◌≡◌, ◌+◌, ◌-◌, ◌^◌, ◌<◌, ◌≤◌, ◌++◌, ◌∷◌, [], ℕ, true, false, IfOk};
ghost use Rattle.std.specs.Prelude.{OnOk, OnErr, None, Some, length, replicate, slice_get, slice_index_or};
ghost use Rattle.std.specs.Prelude.{nat_le, slice_set};
ghost use Rattle.sync_rules.specs.Lists.{is_among, without};
ghost use Rattle.sync_rules.specs.Facts.{row_seen, row_acked, row_asked, row_sent, row_offered};
ghost use Rattle.retry_table.specs.Table.{no_wants, rows_of, wants_of, kept_at, with_row};
ghost use Rattle.retry_table.specs.Table.{with_ready, row_owed, IsEmpty, KeepsRow, ChangesWants};
ghost use Rattle.retry_table.specs.Table.{group_at, SetsGroup};
ghost use Rattle.retry_table.specs.Table.{ReservesRows, row_heard, row_restored, tried_of};
ghost use Rattle.retry_table.specs.Due.{owed_in, message_in, offers_in, requests_in};
ghost use Rattle.retry_table.specs.Due.{sooner_in, sooner_offers_in};

use crate::all_rows::AllRows;
use crate::rows::KeptRow;
use crate::wanted::Wanted;
use std::alloc::{AllocError, Global};
use std::hash::RandomState;
use std::marker::Model;
use sync_ids::MessageId;
use sync_rules::{MAX_CONTACTS, Mode, Tried};

/// What is kept for each contact, a number below `MAX_CONTACTS`: a row for each message, by its
/// arrival number, and the ids wanted from the contact. Contracts see for each contact the list of
/// its rows, which is as long as there is room, and the list of its wanted ids with the room for
/// more of them.
#[derive(Drop)]
pub struct Retry {
    rows: AllRows,
    wants: Vec<Wanted>,
}

impl Model for Retry {
    ghost use Rattle.std.specs.Prelude.{◌≡◌, length};
    ghost use Rattle.retry_table.specs.Table.{Table};
    ghost use Rattle.sync_rules.specs.declared.limits.TheConstants.{MAX_CONTACTS};

    ghost Value = { Table };

    ghost view = { λ t. record {
      rows = t.rows.rows;
      wants = t.wants.items;
      groups = t.rows.groups;
    } };

    ghost invariant = { λ t. (length t.rows.rows ≡ MAX_CONTACTS)
        × (length t.wants.items ≡ MAX_CONTACTS) };
}

/// The wanted ids of all contacts: none.
fn no_wants(alloc: Global, hasher: RandomState) -> Result<Vec<Wanted>, AllocError>
    ensures wants { IfOk result (λ v. (contact : ℕ)
        → slice_index_or v.items contact no_wants ≡ no_wants) }
    ensures len { IfOk result (λ v. length v.items ≡ MAX_CONTACTS) }
{
    let mut wants = Vec::new(alloc);
    for _i in 0..MAX_CONTACTS {
        wants.push(Wanted::new(alloc, hasher))?;
    }
    Ok(wants)
}

impl Retry {
    /// A table with no rows, no wanted ids and no room; ids are hashed by `hasher`. Answers an
    /// error where there is no memory.
    pub fn new(alloc: Global, hasher: RandomState) -> Result<Retry, AllocError>
        ensures { IfOk result IsEmpty }
    {
        let rows = AllRows::new(alloc)?;
        let wants = no_wants(alloc, hasher)?;
        Ok(Retry { rows, wants })
    }

    /// Makes room for the contact's rows of all numbers below `numbers` and for `wants` further
    /// calls of `want`, and never takes room away. It alone of all changes takes memory; after an
    /// error all is as before.
    pub fn reserve(&mut self, contact: u8, numbers: u32, wants: usize) -> Result<(), AllocError>
        ensures ok { OnOk result (ReservesRows self.old self.new contact numbers wants) }
        ensures err { OnErr result (self.new ≡ self.old) }
    {
        let place = contact as usize;
        let room = self.wants[place].room();
        self.wants[place].reserve(wants)?;
        match self.rows.reserve(contact, numbers) {
            Ok(()) => Ok(()),
            Err(error) => {
                self.wants[place].lower(room);
                Err(error)
            }
        }
    }

    /// Whether a contact has rows of all numbers below `numbers`.
    pub fn has_rows(&self, contact: u8, numbers: u32) -> bool
        ensures { result ≡ nat_le numbers (length (rows_of self.now contact)) }
    {
        self.rows.has_rows(contact, numbers)
    }

    /// Makes room for `release` of all messages below `numbers`, and never takes room away. It takes
    /// memory; after an error all is as before.
    pub fn reserve_groups(&mut self, numbers: u32) -> Result<(), AllocError>
        ensures ok { OnOk result (self.new ≡ record self.old {
          groups = self.old.groups ++ replicate (numbers - length self.old.groups) None;
        }) }
        ensures err { OnErr result (self.new ≡ self.old) }
    {
        self.rows.reserve_groups(numbers)
    }

    /// The message of this number was released: from now on it is among those of its group of which
    /// `set_group` says whether they are ready. It was not released before.
    pub fn release(&mut self, n: u32, group: u32)
        requires room { n < length self.old.groups }
        requires new { group_at self.old n ≡ None }
        ensures { self.new ≡ record self.old { groups = slice_set self.old.groups n (Some group) } }
    {
        self.rows.release(n, group);
    }

    /// All messages that were released in the group are ready for the contact, or not. It costs no
    /// more than a note of it.
    pub fn set_group(&mut self, contact: u8, group: u32, ready: bool)
        requires { (n : ℕ) → group_at self.old n ≡ Some group
            → n < length (rows_of self.old contact) }
        ensures { SetsGroup self.old self.new contact group ready }
    {
        self.rows.set_group(contact, group, ready);
    }

    /// Brings the contact's queues in order behind calls of `set_group`: until then each question
    /// for what is due to the contact goes over its rows. Nothing that is seen changes, and it takes
    /// no memory.
    pub fn bring(&mut self, contact: u8)
        ensures { self.new ≡ self.old }
    {
        self.rows.bring(contact);
    }

    /// What is kept of a message, also where there is no row, but for whether it is ready.
    fn row(&self, contact: u8, n: u32) -> KeptRow
        ensures { result.row ≡ (kept_at self.now contact n).row }
    {
        self.rows.row(contact, n)
    }

    /// Keeps this of a message but for whether it is ready, which stays.
    fn put(&mut self, contact: u8, n: u32, row: KeptRow)
        requires { n < length (rows_of self.old contact) }
        ensures { KeepsRow self.old self.new contact n
            (record (kept_at self.old contact n) { row = row.row }) }
    {
        self.rows.put(contact, n, row);
    }

    /// An acknowledgement of the message is owed to the contact.
    pub fn owe(&mut self, contact: u8, n: u32)
        requires { n < length (rows_of self.old contact) }
        ensures { KeepsRow self.old self.new contact n
            (with_row row_owed (kept_at self.old contact n)) }
    {
        self.put(contact, n, self.row(contact, n).owe());
    }

    /// The acknowledgement was sent.
    pub fn paid(&mut self, contact: u8, n: u32)
        requires { n < length (rows_of self.old contact) }
        ensures { KeepsRow self.old self.new contact n
            (with_row row_acked (kept_at self.old contact n)) }
    {
        self.put(contact, n, self.row(contact, n).pay());
    }

    /// The contact asked for the message, which is due at once.
    pub fn ask(&mut self, contact: u8, n: u32)
        requires { n < length (rows_of self.old contact) }
        ensures { KeepsRow self.old self.new contact n
            (with_row row_asked (kept_at self.old contact n)) }
    {
        self.put(contact, n, self.row(contact, n).ask());
    }

    /// The contact has the message.
    pub fn saw(&mut self, contact: u8, n: u32)
        requires { n < length (rows_of self.old contact) }
        ensures { KeepsRow self.old self.new contact n
            (with_row row_seen (kept_at self.old contact n)) }
    {
        self.put(contact, n, self.row(contact, n).see());
    }

    /// The contact sent the message: it has it, and an acknowledgement is owed to it.
    pub fn hear(&mut self, contact: u8, n: u32)
        requires { n < length (rows_of self.old contact) }
        ensures { KeepsRow self.old self.new contact n
            (with_row row_heard (kept_at self.old contact n)) }
    {
        self.put(contact, n, self.row(contact, n).see().owe());
    }

    /// The message was sent to the contact at `now`, on a session of this latency, both in
    /// milliseconds: no longer asked for, one try more, and a new expiry (BSP, "Retransmission").
    pub fn sent(&mut self, contact: u8, n: u32, now: u64, latency: u32)
        requires { n < length (rows_of self.old contact) }
        ensures { KeepsRow self.old self.new contact n
            (with_row (row_sent now latency) (kept_at self.old contact n)) }
    {
        self.put(contact, n, self.row(contact, n).send(now, latency));
    }

    /// The message was offered to the contact at `now`, on a session of this latency, both in
    /// milliseconds: one try more, and a new expiry (BSP, "Retransmission").
    pub fn offered(&mut self, contact: u8, n: u32, now: u64, latency: u32)
        requires { n < length (rows_of self.old contact) }
        ensures { KeepsRow self.old self.new contact n
            (with_row (row_offered now latency) (kept_at self.old contact n)) }
    {
        self.put(contact, n, self.row(contact, n).offer(now, latency));
    }

    /// This is stated of the message for its contact, whatever was kept before; whether the message
    /// is ready stays. At most 64 tries are counted.
    pub fn restore(&mut self, tried: &Tried, n: u32)
        requires room { n < length (rows_of self.old tried.now.contact) }
        requires few { tried.now.tries ≤ 64 }
        ensures { KeepsRow self.old self.new tried.now.contact n
            (with_row (row_restored tried.now) (kept_at self.old tried.now.contact n)) }
    {
        self.put(tried.contact, n, self.row(tried.contact, n).restore(tried));
    }

    /// What is kept of the message for the contact, as it may be stated with this id: all false and
    /// zero where there is no row. It takes no memory.
    pub fn tried(&self, contact: u8, n: u32, id: MessageId) -> Tried
        ensures { result ≡ tried_of contact id (kept_at self.now contact n).row }
    {
        self.row(contact, n).tried(contact, id)
    }

    /// The message is ready: delivered, of a group that is Shared with the contact, and written
    /// here or judged to be shared.
    pub fn ready(&mut self, contact: u8, n: u32)
        requires { n < length (rows_of self.old contact) }
        ensures { KeepsRow self.old self.new contact n (with_ready true (kept_at self.old contact n)) }
    {
        self.rows.set_ready(contact, n, true);
    }

    /// The message is not ready.
    pub fn unready(&mut self, contact: u8, n: u32)
        requires { n < length (rows_of self.old contact) }
        ensures { KeepsRow self.old self.new contact n
            (with_ready false (kept_at self.old contact n)) }
    {
        self.rows.set_ready(contact, n, false);
    }

    /// Puts an id at the end of those wanted from the contact.
    pub fn want(&mut self, contact: u8, id: MessageId)
        requires new { is_among (wants_of self.old contact).ids id ≡ false }
        requires room { 0 < (wants_of self.old contact).room }
        requires few { length (wants_of self.old contact).ids < 2 ^ 32 - 1 }
        ensures { ChangesWants self.old self.new contact
            (record {
              ids = (wants_of self.old contact).ids ++ id ∷ [];
              room =
                  (wants_of self.old contact).room - 1;
            }) }
    {
        self.wants[contact as usize].want(id);
    }

    /// Takes an id out of those wanted from the contact; nothing changes where it is not there.
    pub fn unwant(&mut self, contact: u8, id: &MessageId)
        ensures { ChangesWants self.old self.new contact
            (record (wants_of self.old contact) {
              ids = without id.now
                  (wants_of self.old contact).ids;
            }) }
    {
        self.wants[contact as usize].unwant(id);
    }

    /// The time in milliseconds from which the message may be sent or offered to the contact again;
    /// 0 where there is no row.
    pub fn expiry(&self, contact: u8, n: u32) -> u64
        ensures { result ≡ (kept_at self.now contact n).row.expiry }
    {
        self.row(contact, n).expiry()
    }

    /// Whether the contact has the message; not where there is no row.
    pub fn is_seen(&self, contact: u8, n: u32) -> bool
        ensures { result ≡ (kept_at self.now contact n).row.seen }
    {
        self.row(contact, n).is_seen()
    }

    /// The numbers of the messages whose acknowledgement is owed to the contact, in order, at most
    /// 1,536. Answers an error where there is no memory.
    pub fn owed(&self, contact: u8) -> Result<Vec<u32>, AllocError>
        ensures { IfOk result (λ v. v.items ≡ owed_in (rows_of self.now contact)) }
    {
        self.rows.owed(contact)
    }

    /// The ids wanted from the contact, in order, at most 1,536. Answers an error where there is no
    /// memory.
    pub fn wanted(&self, contact: u8) -> Result<Vec<MessageId>, AllocError>
        ensures { IfOk result (λ v. v.items ≡ requests_in (wants_of self.now contact).ids) }
    {
        self.wants[contact as usize].requests()
    }

    /// The number of the message that is to be sent to the contact at `now`: the first that is
    /// ready, not seen, and in interactive mode asked for, in batch mode with an expiry of at most
    /// `now`. `None` exactly where there is none.
    pub fn due_message(&self, contact: u8, mode: Mode, now: u64) -> Option<u32>
        ensures { result ≡ message_in mode now (rows_of self.now contact) }
    {
        self.rows.due_message(contact, mode, now)
    }

    /// The numbers of the messages that are to be offered to the contact at `now`, in order, at
    /// most 1,536: those that are ready, not seen, not asked for, and have an expiry of at most
    /// `now`. Answers an error where there is no memory.
    pub fn due_offers(&self, contact: u8, now: u64) -> Result<Vec<u32>, AllocError>
        ensures { IfOk result (λ v. v.items ≡ offers_in now (rows_of self.now contact)) }
    {
        self.rows.due_offers(contact, now)
    }

    /// The number of the message that is to be sent to the contact at `now` before its time, by a
    /// session of this latency in milliseconds: the first that is ready, not seen, not asked for,
    /// and of which a try would set an expiry less than the one that stands. `None` exactly where
    /// there is none. It is found by descent where rows were reserved behind the last `restore`, and
    /// else by a walk.
    pub fn sooner_message(&self, contact: u8, latency: u32, now: u64) -> Option<u32>
        ensures { result ≡ sooner_in latency now (rows_of self.now contact) }
    {
        self.rows.sooner_message(contact, latency, now)
    }

    /// The numbers of the messages that are to be offered to the contact at `now` before their time,
    /// by a session of this latency, in order, at most 1,536. Answers an error where there is no
    /// memory.
    pub fn sooner_offers(&self, contact: u8, latency: u32, now: u64) -> Result<Vec<u32>, AllocError>
        ensures { IfOk result (λ v. v.items ≡ sooner_offers_in latency now
            (rows_of self.now contact)) }
    {
        self.rows.sooner_offers(contact, latency, now)
    }

    /// Whether an id is wanted from the contact.
    pub fn is_wanted(&self, contact: u8, id: &MessageId) -> bool
        ensures { result ≡ is_among (wants_of self.now contact).ids id.now }
    {
        self.wants[contact as usize].contains(id)
    }

    /// The id of this place, from 0, among those wanted from the contact, in their order.
    pub fn wanted_at(&self, contact: u8, place: u32) -> MessageId
        requires { place < length (wants_of self.now contact).ids }
        ensures { slice_get (wants_of self.now contact).ids place ≡ Some result }
    {
        self.wants[contact as usize].at(place)
    }

    /// The number of ids wanted from the contact.
    pub fn wanted_count(&self, contact: u8) -> u32
        ensures { result ≡ length (wants_of self.now contact).ids }
    {
        self.wants[contact as usize].len()
    }
}
