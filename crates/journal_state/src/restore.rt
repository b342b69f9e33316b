//! Rows and wanted ids that a brief account states are tested and taken.
ghost use Rattle.std.specs.Prelude.{◌≡◌, ◌≤◌, ◌&&◌, ◌||◌, true, false, not, length, nat_eq, nat_le};
ghost use Rattle.std.specs.Prelude.{IfOk, OnErr};
ghost use Rattle.sync_rules.specs.Clients.{Meaning};
ghost use Rattle.sync_rules.specs.Facts.{after, after_all, change_row, is_no_row, no_row};
ghost use Rattle.sync_rules.specs.Legal.{is_empty_row};
ghost use Rattle.sync_rules.specs.Allows.{are_rows, is_rows, may_restore, may_want, suits_rows};
ghost use Rattle.sync_rules.specs.Views.{IsPlace};
ghost use Rattle.retry_table.specs.Table.{row_restored};
ghost use Rattle.journal_state.specs.Room.{rows_room};
ghost use Rattle.journal_state.specs.Stepping.{PlaysFront};
ghost use Rattle.journal_state.specs.Whole.{KnowsJudgements};

use crate::start::is_opening;
use crate::state::State;
use std::alloc::AllocError;
use sync_ids::MessageId;
use sync_rules::{Entry, MAX_ROWS, MAX_TRIES, MAX_WANTED, Start, Tried, View};

/// Whether nothing is kept of a message for a contact.
fn is_empty_row(tried: &Tried) -> bool
    ensures { result ≡ is_empty_row tried.now }
{
    !tried.seen && (!tried.owed && (!tried.asked && tried.tries == 0))
}

/// Whether nothing is kept of a message for a contact, not even a time.
fn is_no_row(tried: &Tried) -> bool
    ensures { result ≡ is_no_row (row_restored tried.now no_row) }
{
    !tried.seen && (!tried.owed && (!tried.asked && (tried.tries == 0 && tried.expiry == 0)))
}

/// Whether what is stated keeps its limits: at most `MAX_TRIES` tries, and no time without a try.
fn keeps_limits(tried: &Tried) -> bool
    ensures { result ≡ (nat_le tried.now.tries MAX_TRIES && (not (nat_eq tried.now.tries 0)
        || nat_eq tried.now.expiry 0)) }
{
    tried.tries <= MAX_TRIES && (tried.tries != 0 || tried.expiry == 0)
}

impl State {
    /// Whether a row may be stated of the held message of this number.
    fn may_restore(&self, tried: &Tried, number: u32) -> bool
        requires { IsPlace self.now.facts.held tried.now.id number }
        ensures { result ≡ may_restore self.now.facts tried.now }
    {
        if u32::from(tried.contact) >= self.table.contacts() || !keeps_limits(tried) {
            return false;
        }
        !is_empty_row(tried) && is_no_row(&self.tried(tried.contact, number))
    }

    /// States the row of the held message of this number, for a contact that has room for the rows
    /// of all held messages.
    fn put_row(&mut self, tried: &Tried, number: u32)
        requires place { IsPlace self.old.facts.held tried.now.id number }
        requires room { length self.old.facts.held ≤ rows_room self.old.room tried.now.contact }
        requires few { tried.now.tries ≤ 64 }
        requires wait { tried.now.tries ≡ 0 → tried.now.expiry ≡ 0 }
        ensures facts { self.new.facts ≡ record self.old.facts {
          rows = change_row self.old.facts.rows tried.now.contact tried.now.id
              (row_restored tried.now);
        } }
        ensures answers { self.new.answers ≡ self.old.answers }
    {
        self.retry.restore(tried, number);
    }

    /// States a row where it suits, and answers whether it does. It fails only for want of memory.
    fn restore_row(&mut self, tried: &Tried) -> Result<bool, AllocError>
        requires { self.old.facts.start ≡ Start.Opening }
        ensures answer { IfOk result (λ yes. yes ≡ may_restore self.old.facts tried.now) }
        ensures taken { IfOk result (λ yes. yes ≡ true
            → self.new.facts ≡ after self.old.facts (Entry.Tried tried.now)) }
        ensures refused { IfOk result (λ yes. yes ≡ false → self.new.facts ≡ self.old.facts) }
        ensures err { OnErr result (self.new.facts ≡ self.old.facts) }
        ensures answers { self.new.answers ≡ self.old.answers }
    {
        self.show_sound();
        let Some(number) = self.find(&tried.id) else {
            return Ok(false);
        };
        if !self.may_restore(tried, number) {
            return Ok(false);
        }
        self.reserve_rows(tried.contact, 0)?;
        self.put_row(tried, number);
        Ok(true)
    }

    /// Whether an id may be stated as wanted from a contact.
    fn may_want(&self, contact: u8, id: &MessageId) -> bool
        ensures { result ≡ may_want self.now.facts contact id.now }
    {
        if u32::from(contact) >= self.contacts() || self.find(id).is_some() {
            return false;
        }
        !self.is_wanted(contact, id) && self.wanted_count(contact) < MAX_WANTED
    }

    /// States an id as wanted from a contact where it suits, and answers whether it does. It fails
    /// only for want of memory.
    fn restore_want(&mut self, contact: u8, id: MessageId) -> Result<bool, AllocError>
        requires { self.old.facts.start ≡ Start.Opening }
        ensures answer { IfOk result (λ yes. yes ≡ may_want self.old.facts contact id) }
        ensures taken { IfOk result (λ yes. yes ≡ true
            → self.new.facts ≡ after self.old.facts (Entry.Want contact id)) }
        ensures refused { IfOk result (λ yes. yes ≡ false → self.new.facts ≡ self.old.facts) }
        ensures err { OnErr result (self.new.facts ≡ self.old.facts) }
        ensures answers { self.new.answers ≡ self.old.answers }
    {
        if !self.may_want(contact, &id) {
            return Ok(false);
        }
        self.reserve_rows(contact, 1)?;
        self.want(contact, id);
        Ok(true)
    }

    /// States a row or a wanted id where it suits, and answers whether it does. It fails only for
    /// want of memory.
    fn restore_one(&mut self, entry: &Entry) -> Result<bool, AllocError>
        requires { self.old.facts.start ≡ Start.Opening }
        ensures answer { IfOk result (λ yes. yes ≡ suits_rows self.old.facts entry.now) }
        ensures taken { IfOk result (λ yes. yes ≡ true
            → self.new.facts ≡ after self.old.facts entry.now) }
        ensures refused { IfOk result (λ yes. yes ≡ false → self.new.facts ≡ self.old.facts) }
        ensures err { OnErr result (self.new.facts ≡ self.old.facts) }
        ensures answers { self.new.answers ≡ self.old.answers }
    {
        match entry {
            Entry::Tried(tried) => self.restore_row(tried),
            Entry::Want(contact, id) => self.restore_want(*contact, *id),
            _ => Ok(false),
        }
    }

    /// States rows and wanted ids as long as they suit, and answers whether all do. It fails only
    /// for want of memory.
    fn restore_all(&mut self, entries: &[Entry]) -> Result<bool, AllocError>
        requires { self.old.facts.start ≡ Start.Opening }
        ensures answer { IfOk result (λ yes. yes ≡ are_rows self.old.facts entries.now) }
        ensures taken { IfOk result (λ yes. yes ≡ true
            → self.new.facts ≡ after_all self.old.facts entries.now) }
        ensures front { (clients : Meaning)
            → PlaysFront clients self.old.facts self.new.facts entries.now }
        ensures knows { (clients : Meaning) → KnowsJudgements clients self.old → KnowsJudgements clients self.new }
    {
        for entry in entries {
            if !self.restore_one(entry)? {
                return Ok(false);
            }
        }
        Ok(true)
    }

    /// Tests a batch of rows and wanted ids, and takes it where it may follow; otherwise the state
    /// stands for the journal as before with a front of the batch that suits. It fails only for
    /// want of memory.
    pub(crate) fn admit_rows(&mut self, entries: &[Entry]) -> Result<bool, AllocError>
        ensures answer { (clients : Meaning) → KnowsJudgements clients self.old
            → IfOk result (λ yes. yes ≡ is_rows clients self.old.facts entries.now) }
        ensures taken { IfOk result (λ yes. yes ≡ true
            → self.new.facts ≡ after_all self.old.facts entries.now) }
        ensures front { (clients : Meaning)
            → PlaysFront clients self.old.facts self.new.facts entries.now }
        ensures knows { (clients : Meaning) → KnowsJudgements clients self.old → KnowsJudgements clients self.new }
    {
        if !is_opening(self.start) {
            return Ok(false);
        }
        if !self.is_settled() {
            return Ok(false);
        }
        if entries.len() > MAX_ROWS {
            return Ok(false);
        }
        self.restore_all(entries)
    }
}
