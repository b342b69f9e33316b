//! The rows of one contact, with a queue for each thing that may be due.
ghost use Rattle.std.specs.Prelude.{◌≡◌, ◌^◌, ◌<◌, [], IfSome, IfOk, OnOk, OnErr, length};
ghost use Rattle.std.specs.Prelude.{drop, slice_set};
ghost use Rattle.std.specs.List.{position_from};
ghost use Rattle.retry_table.specs.Table.{kept_in, with_numbers};
ghost use Rattle.retry_table.specs.Due.{is_sooner_at, message_in, offers_in, owed_in};

use crate::blocks::{Times, mend, next_at_most};
use crate::classes::Classes;
use crate::places::{set_places, timely_places};
use crate::rows::KeptRow;
use due_tree::{Bits, DueTree};
use std::alloc::{AllocError, Global};
use std::marker::Model;
use sync_rules::Mode;

/// The rows of one contact by number, and the queues that follow them. Contracts see the list of
/// what is kept.
#[derive(Drop)]
pub(crate) struct Queues {
    rows: Vec<KeptRow>,
    messages: DueTree,
    asked: Bits,
    offers: DueTree,
    owed: Bits,
    sooner: Classes,
}

impl Model for Queues {
    ghost use Rattle.std.specs.Prelude.{List};
    ghost use Rattle.retry_table.specs.Table.{KeptRow};
    ghost use Rattle.retry_table.specs.Queues.{AreQueues};

    ghost Value = { List KeptRow };

    ghost view = { λ q. q.rows.items };

    ghost invariant = { λ q. AreQueues q.rows.items q.messages q.asked q.offers q.owed
        q.sooner };
}

impl Queues {
    /// No rows.
    pub(crate) fn new(alloc: Global) -> Result<Queues, AllocError>
        ensures { IfOk result (λ q. q ≡ []) }
    {
        let messages = DueTree::new(alloc)?;
        let asked = Bits::new(alloc)?;
        let offers = DueTree::new(alloc)?;
        let owed = Bits::new(alloc)?;
        Ok(Queues {
            rows: Vec::new(alloc),
            messages,
            asked,
            offers,
            owed,
            sooner: Classes::new(alloc),
        })
    }

    /// Makes rows for all numbers below this one, and a queue for one try more than there were. It
    /// alone takes memory; after an error all is as before.
    pub(crate) fn reserve(&mut self, numbers: u32) -> Result<(), AllocError>
        ensures ok { OnOk result (self.new ≡ with_numbers numbers self.old) }
        ensures err { OnErr result (self.new ≡ self.old) }
    {
        self.grow()?;
        self.reserve_rows(numbers)
    }

    /// Makes a queue for each number of tries that occurs, and for one more.
    fn grow(&mut self) -> Result<(), AllocError>
        ensures { self.new ≡ self.old }
    {
        self.sooner.grow(*self.rows.allocator(), &self.rows)
    }

    /// Makes rows for all numbers below this one.
    fn reserve_rows(&mut self, numbers: u32) -> Result<(), AllocError>
        ensures ok { OnOk result (self.new ≡ with_numbers numbers self.old) }
        ensures err { OnErr result (self.new ≡ self.old) }
    {
        let places = numbers as usize;
        if places <= self.rows.len() {
            return Ok(());
        }
        self.messages.reserve(places / 64 + 1)?;
        self.asked.reserve(places)?;
        self.offers.reserve(places / 64 + 1)?;
        self.owed.reserve(places)?;
        self.sooner.reserve(&self.rows, places / 64 + 1)?;
        self.rows.resize(places, KeptRow::none())?;
        Ok(())
    }

    /// The number of rows.
    pub(crate) fn len(&self) -> usize
        ensures many { result ≡ length self.now }
        ensures few { result < 2 ^ 32 }
    {
        self.rows.len()
    }

    /// What is kept at a number, also where there is no row.
    pub(crate) fn get(&self, n: usize) -> KeptRow
        ensures { result ≡ kept_in self.now n }
    {
        if n < self.rows.len() {
            self.rows[n]
        } else {
            KeptRow::none()
        }
    }

    /// Keeps this at a number.
    pub(crate) fn put(&mut self, n: usize, row: KeptRow)
        requires { n < length self.old }
        ensures { self.new ≡ slice_set self.old n row }
    {
        let old = self.rows[n];
        self.rows[n] = row;
        mend(&mut self.messages, Times::ToSend, &self.rows, n, old);
        mend(&mut self.offers, Times::ToOffer, &self.rows, n, old);
        self.asked.put(n, row.is_awaited());
        self.owed.put(n, row.is_owed());
        self.sooner.mend(&self.rows, n, old);
    }

    /// The numbers that wait for our acknowledgement, at most 1,536.
    pub(crate) fn owed(&self) -> Result<Vec<u32>, AllocError>
        ensures { IfOk result (λ v. v.items ≡ owed_in self.now) }
    {
        set_places(*self.rows.allocator(), &self.owed)
    }

    /// The numbers to be offered, at most 1,536.
    pub(crate) fn due_offers(&self, now: u64) -> Result<Vec<u32>, AllocError>
        ensures { IfOk result (λ v. v.items ≡ offers_in now self.now) }
    {
        timely_places(
            *self.rows.allocator(),
            &self.offers,
            Times::ToOffer,
            &self.rows,
            now,
        )
    }

    /// The place of the message to be sent.
    fn message_place(&self, mode: Mode, now: u64) -> Option<usize>
        ensures first { result ≡ message_in mode now self.now }
        ensures small { IfSome result (λ place. place < 2 ^ 32) }
    {
        match mode {
            Mode::Interactive => self.asked.next(0),
            Mode::Batch => next_at_most(&self.messages, Times::ToSend, &self.rows, 0, now),
        }
    }

    /// The number of the message to be sent.
    pub(crate) fn due_message(&self, mode: Mode, now: u64) -> Option<u32>
        ensures { result ≡ message_in mode now self.now }
    {
        let place = self.message_place(mode, now)?;
        Some(place as u32)
    }

    /// The first row from `from` on that goes before its time by a session of this latency. It may
    /// be that there is no queue for some number of tries: then the rows are to be gone over.
    pub(crate) fn next_sooner(&self, latency: u32, now: u64, from: usize) -> Option<Option<usize>>
        ensures first { IfSome result (λ found. found ≡ position_from (is_sooner_at latency now) from
            (drop from self.now)) }
        ensures small { IfSome result (λ found. IfSome found (λ place. place < 2 ^ 32)) }
    {
        if !self.sooner.are_whole() {
            return None;
        }
        Some(self.sooner.next_sooner(&self.rows, latency, now, from))
    }
}
