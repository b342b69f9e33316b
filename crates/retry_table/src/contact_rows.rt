//! The rows of one contact, with what was said of whole groups since its queues were last in order.
ghost use Rattle.std.specs.Prelude.{◌≡◌, ◌+◌, ◌<◌, ◌≤◌, ◌^◌, ◌++◌, [], ℕ, true, IfOk, IfSome, OnOk, OnErr};
ghost use Rattle.std.specs.Prelude.{List, Option, Some, None, drop, length, slice_index_or, slice_set, take};
ghost use Rattle.sync_ids.specs.declared.lists.TheConstants.{MAX_IDS};
ghost use Rattle.std.specs.List.{position_from};
ghost use Rattle.retry_table.specs.Contacts.{HasTurnRoom, IsBlank};
ghost use Rattle.retry_table.specs.Due.{message_in, numbers_where, offers_in, sooner_in};
ghost use Rattle.retry_table.specs.Due.{sooner_offers_in};
ghost use Rattle.retry_table.specs.Queues.{is_sought};
ghost use Rattle.retry_table.specs.Table.{kept_in, with_numbers, with_ready};
ghost use Rattle.retry_table.specs.Turns.{as_said, said_at, said_before, shown, turned, turns_in};
ghost use Rattle.retry_table.specs.Turns.{with_turn};

use crate::queues::Queues;
use crate::rows::{KeptRow, Sought};
use indexmap::IndexMap;
use std::alloc::{AllocError, Global};
use sync_ids::MAX_IDS;
use sync_rules::Mode;

/// A message that may be sent to others: its group, and how many were released before it.
#[derive(Clone, Copy)]
pub(crate) struct Released {
    pub(crate) group: u32,
    pub(crate) place: u32,
}

/// What was said of a group for a contact: whether it is Shared, for the messages that were
/// released before so many.
#[derive(Clone, Copy)]
pub(crate) struct Turn {
    pub(crate) shared: bool,
    pub(crate) before: u32,
}

impl Turn {
    /// What is said of the message that was released behind so many.
    fn of(self, place: u32) -> Option<bool>
        ensures { result ≡ said_before place (Some self) }
    {
        if place < self.before {
            Some(self.shared)
        } else {
            None
        }
    }
}

/// The rows of one contact as its queues have them, and by group what was said since.
#[derive(Drop)]
pub(crate) struct ContactRows {
    pub(crate) queues: Queues,
    pub(crate) turns: IndexMap<u32, Turn>,
}

impl ContactRows {
    /// No rows, and nothing said.
    pub(crate) fn new(alloc: Global) -> Result<ContactRows, AllocError>
        ensures { IfOk result IsBlank }
    {
        let queues = Queues::new(alloc)?;
        let mut turns = IndexMap::new(alloc);
        turns.reserve(1)?;
        Ok(ContactRows { queues, turns })
    }

    /// Makes rows for all numbers below this one, and room for what is said of one group more.
    pub(crate) fn reserve(&mut self, numbers: u32) -> Result<(), AllocError>
        ensures ok { OnOk result (self.new.queues ≡ with_numbers numbers self.old.queues) }
        ensures err { OnErr result (self.new.queues ≡ self.old.queues) }
        ensures turns { self.new.turns.entries ≡ self.old.turns.entries }
        ensures room { HasTurnRoom self.old → HasTurnRoom self.new }
    {
        self.turns.reserve(1)?;
        self.queues.reserve(numbers)
    }

    /// What was said last of the message of this number.
    fn said(&self, released: &[Option<Released>], n: usize) -> Option<bool>
        ensures { result ≡ said_at (turns_in self.now.turns.entries) released.now n }
    {
        if n >= released.len() {
            return None;
        }
        let at = released[n]?;
        let turn = self.turns.get(&at.group)?;
        turn.of(at.place)
    }

    /// What is kept at a number, with what was said.
    fn row(&self, released: &[Option<Released>], n: usize) -> KeptRow
        ensures { result ≡ kept_in (shown released.now self.now.turns.entries self.now.queues) n }
    {
        let row = self.queues.get(n);
        if n >= self.queues.len() {
            return row;
        }
        match self.said(released, n) {
            None => row,
            Some(ready) => row.make_ready(ready),
        }
    }

    /// Brings one row in order.
    fn bring_row(&mut self, released: &[Option<Released>], n: usize)
        requires { n < length self.old.queues }
        ensures queues { self.new.queues ≡ slice_set self.old.queues n (turned
            (said_at (turns_in self.old.turns.entries) released.now n)
            (kept_in self.old.queues n)) }
        ensures turns { self.new.turns.entries ≡ self.old.turns.entries }
        ensures room { HasTurnRoom self.old → HasTurnRoom self.new }
    {
        if let Some(ready) = self.said(released, n) {
            let row = self.queues.get(n).make_ready(ready);
            self.queues.put(n, row);
        }
    }

    /// Brings each row in order.
    fn bring_rows(&mut self, released: &[Option<Released>])
        ensures queues { self.new.queues ≡ shown released.now self.old.turns.entries
            self.old.queues }
        ensures turns { self.new.turns.entries ≡ self.old.turns.entries }
        ensures room { HasTurnRoom self.old → HasTurnRoom self.new }
    {
        for n in 0..self.queues.len() {
            self.bring_row(released, n);
        }
    }

    /// Brings the rows in order by what was said, which is then forgotten. Where nothing was said
    /// they are in order, and none is looked at.
    pub(crate) fn bring(&mut self, released: &[Option<Released>])
        ensures queues { self.new.queues ≡ shown released.now self.old.turns.entries
            self.old.queues }
        ensures turns { self.new.turns.entries ≡ [] }
        ensures room { HasTurnRoom self.old → HasTurnRoom self.new }
    {
        if self.turns.is_empty() {
            return;
        }
        self.bring_rows(released);
        self.turns.clear();
    }

    /// Notes what is said of a group, of all that are released. Where there is no room the rows are
    /// brought in order before.
    pub(crate) fn say(&mut self, released: &[Option<Released>], group: u32, turn: Turn)
        requires room { HasTurnRoom self.old }
        requires all { (n : ℕ) → (at : Released) → slice_index_or released.now n None ≡ Some at
            → at.place < turn.before }
        ensures shown { shown released.now self.new.turns.entries self.new.queues ≡ as_said
            (said_at (with_turn group turn (turns_in self.old.turns.entries)) released.now) 0
            self.old.queues }
        ensures many { length self.new.queues ≡ length self.old.queues }
        ensures turns { (g : ℕ) → (t : Turn) → turns_in self.new.turns.entries g ≡ Some t
            → with_turn group turn (turns_in self.old.turns.entries) g ≡ Some t }
        ensures room { HasTurnRoom self.new }
    {
        match self.turns.insert(group, turn) {
            Ok(_) => {}
            Err(_) => {
                self.bring(released);
                self.turns.insert(group, turn).unwrap();
            }
        }
    }

    /// Keeps this at a number but for whether it is ready, which stays.
    pub(crate) fn put(&mut self, n: usize, row: KeptRow)
        requires { n < length self.old.queues }
        ensures queues { self.new.queues ≡ slice_set self.old.queues n
            (record row { ready = (kept_in self.old.queues n).ready }) }
        ensures turns { self.new.turns.entries ≡ self.old.turns.entries }
        ensures room { HasTurnRoom self.old → HasTurnRoom self.new }
    {
        let ready = self.queues.get(n).is_ready();
        self.queues.put(n, row.make_ready(ready));
    }

    /// Nothing is said of one message any more: where something was, the rows are brought in order.
    fn settle(&mut self, released: &[Option<Released>], n: usize)
        ensures shown { shown released.now self.new.turns.entries self.new.queues ≡ shown
            released.now self.old.turns.entries self.old.queues }
        ensures none { said_at (turns_in self.new.turns.entries) released.now n ≡ None }
        ensures many { length self.new.queues ≡ length self.old.queues }
        ensures turns { (g : ℕ) → (t : Turn) → turns_in self.new.turns.entries g ≡ Some t
            → turns_in self.old.turns.entries g ≡ Some t }
        ensures room { HasTurnRoom self.old → HasTurnRoom self.new }
    {
        if self.said(released, n).is_none() {
            return;
        }
        self.bring(released);
    }

    /// Says of one message, of which nothing is said, whether it is ready.
    fn put_ready(&mut self, n: usize, ready: bool)
        requires { n < length self.old.queues }
        ensures queues { self.new.queues ≡ slice_set self.old.queues n
            (with_ready ready (kept_in self.old.queues n)) }
        ensures turns { self.new.turns.entries ≡ self.old.turns.entries }
        ensures room { HasTurnRoom self.old → HasTurnRoom self.new }
    {
        let row = self.queues.get(n).make_ready(ready);
        self.queues.put(n, row);
    }

    /// Says of one message whether it is ready.
    pub(crate) fn set_ready(&mut self, released: &[Option<Released>], n: usize, ready: bool)
        requires { n < length self.old.queues }
        ensures shown { shown released.now self.new.turns.entries self.new.queues ≡ slice_set
            (shown released.now self.old.turns.entries self.old.queues) n
            (with_ready ready
            (kept_in (shown released.now self.old.turns.entries self.old.queues) n)) }
        ensures many { length self.new.queues ≡ length self.old.queues }
        ensures turns { (g : ℕ) → (t : Turn) → turns_in self.new.turns.entries g ≡ Some t
            → turns_in self.old.turns.entries g ≡ Some t }
        ensures room { HasTurnRoom self.old → HasTurnRoom self.new }
    {
        self.settle(released, n);
        self.put_ready(n, ready);
    }

    /// The first row from `from` on that is sought, by going over the rows.
    fn walk(&self, released: &[Option<Released>], sought: Sought, from: usize) -> Option<usize>
        ensures first { result ≡ position_from (is_sought sought) from
            (drop from (shown released.now self.now.turns.entries self.now.queues)) }
        ensures small { IfSome result (λ place. place < 2 ^ 32) }
    {
        for n in from..self.queues.len() {
            if self.row(released, n).is_sought(sought) {
                return Some(n);
            }
        }
        None
    }

    /// The same, for what goes before its time by the queues where they are in order and there is one
    /// for each number of tries.
    fn next_sought(
        &self,
        released: &[Option<Released>],
        sought: Sought,
        from: usize,
    ) -> Option<usize>
        ensures first { result ≡ position_from (is_sought sought) from
            (drop from (shown released.now self.now.turns.entries self.now.queues)) }
        ensures small { IfSome result (λ place. place < 2 ^ 32) }
    {
        if let Some(found) = self.next_in_queues(sought, from) {
            return found;
        }
        self.walk(released, sought, from)
    }

    /// The first row from `from` on that is sought, where the queues have an answer.
    fn next_in_queues(&self, sought: Sought, from: usize) -> Option<Option<usize>>
        ensures first { (released : List (Option Released)) → IfSome result (λ found. found
            ≡ position_from (is_sought sought) from
            (drop from (shown released self.now.turns.entries self.now.queues))) }
        ensures small { IfSome result (λ found. IfSome found (λ place. place < 2 ^ 32)) }
    {
        match sought {
            Sought::Sooner(latency, now) if self.turns.is_empty() => {
                self.queues.next_sooner(latency, now, from)
            }
            _ => None,
        }
    }

    /// The first 1,536 rows that are sought, in order.
    fn all_sought(
        &self,
        released: &[Option<Released>],
        sought: Sought,
    ) -> Result<Vec<u32>, AllocError>
        ensures { IfOk result (λ v. v.items ≡ take MAX_IDS (numbers_where (is_sought sought) 0
            (shown released.now self.now.turns.entries self.now.queues))) }
    {
        let mut places = Vec::new(*self.turns.allocator());
        let mut from = 0;
        for _i in 0..MAX_IDS {
            match self.next_sought(released, sought, from) {
                None => return Ok(places),
                Some(place) => {
                    places.push(place as u32)?;
                    from = place + 1;
                }
            }
        }
        Ok(places)
    }

    /// The numbers to be offered, at most 1,536: by the queues where they are in order, and by a
    /// walk where something was said since.
    pub(crate) fn due_offers(
        &self,
        released: &[Option<Released>],
        now: u64,
    ) -> Result<Vec<u32>, AllocError>
        ensures { IfOk result (λ v. v.items ≡ offers_in now
            (shown released.now self.now.turns.entries self.now.queues)) }
    {
        if self.turns.is_empty() {
            return self.queues.due_offers(now);
        }
        self.all_sought(released, Sought::Offer(now))
    }

    /// The number of the message to be sent, found in the same way.
    pub(crate) fn due_message(
        &self,
        released: &[Option<Released>],
        mode: Mode,
        now: u64,
    ) -> Option<u32>
        ensures { result ≡ message_in mode now
            (shown released.now self.now.turns.entries self.now.queues) }
    {
        if self.turns.is_empty() {
            return self.queues.due_message(mode, now);
        }
        let place = self.walk(released, Sought::Message(mode, now), 0)?;
        Some(place as u32)
    }

    /// The number of the message to be sent before its time.
    pub(crate) fn sooner_message(
        &self,
        released: &[Option<Released>],
        latency: u32,
        now: u64,
    ) -> Option<u32>
        ensures { result ≡ sooner_in latency now
            (shown released.now self.now.turns.entries self.now.queues) }
    {
        let place = self.next_sought(released, Sought::Sooner(latency, now), 0)?;
        Some(place as u32)
    }

    /// The numbers to be offered before their time, at most 1,536.
    pub(crate) fn sooner_offers(
        &self,
        released: &[Option<Released>],
        latency: u32,
        now: u64,
    ) -> Result<Vec<u32>, AllocError>
        ensures { IfOk result (λ v. v.items ≡ sooner_offers_in latency now
            (shown released.now self.now.turns.entries self.now.queues)) }
    {
        self.all_sought(released, Sought::Sooner(latency, now))
    }
}
