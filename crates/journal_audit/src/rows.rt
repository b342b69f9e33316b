//! What is kept of each message for each contact.
ghost use Rattle.std.specs.Prelude.{◌≡◌, ◌≤◌, IfOk, OnOk};
ghost use Rattle.std.specs.FinMap as fin_map;
ghost use Rattle.sync_rules.specs.Facts.{change_row, expiry_after, is_no_row, no_row, one_more_try};
ghost use Rattle.sync_rules.specs.Facts.{put_row, row_at, row_offered, row_tried, wait_for};
ghost use Rattle.sync_rules.specs.Sessions.{goes_sooner};
ghost use Rattle.journal_audit.specs.Early.{goes_early};
ghost use Rattle.journal_audit.specs.Rows.{changed_by};

use crate::time::Time;
use std::alloc::{AllocError, Global};
use std::collections::BTreeMap;
use std::marker::Model;
use sync_ids::MessageId;
use sync_rules::{MAX_TRIES, Tried};

/// What is kept of a message for a contact.
#[derive(Clone, Copy)]
pub(crate) struct ContactRow {
    /// The contact has the message.
    pub(crate) seen: bool,
    /// The message waits for our acknowledgement.
    pub(crate) owed: bool,
    /// The contact asked for the message.
    pub(crate) asked: bool,
    /// How often it was sent or offered since.
    pub(crate) tries: u8,
    /// The time in milliseconds from which it may be sent or offered again.
    pub(crate) expiry: Time,
}

impl Model for ContactRow {
    ghost use Rattle.sync_rules.specs.Codes.{row_code};
    ghost use Rattle.sync_rules.specs.Facts.{Row};

    ghost Value = { Row };

    ghost coded = { row_code };

    ghost view = { λ r. record {
      seen = r.seen;
      owed = r.owed;
      asked = r.asked;
      tries = r.tries;
      expiry
          = r.expiry;
    } };

    ghost inverse = { λ r. record {
      seen = r.seen;
      owed = r.owed;
      asked = r.asked;
      tries = r.tries;
      expiry
          = r.expiry;
    } };
}

/// What an entry makes of one row.
#[derive(Clone, Copy)]
pub(crate) enum RowChange {
    /// The contact has the message, and waits for our acknowledgement.
    Heard,
    /// The contact has the message.
    Seen,
    /// We acknowledged it.
    Acked,
    /// The contact asked for it.
    Asked,
    /// It was offered at this time, by a session of this latency.
    Offered(u64, u32),
    /// It was sent at this time, by a session of this latency.
    Sent(u64, u32),
    /// This is kept of it.
    Tried(Tried),
}

// The time from which a message may be sent or offered again after so many tries, the last one at
// `now`: two ways of the latency, doubled with each try (BSP, "Retransmission").
fn expiry_after(now: u64, latency: u32, tries: u8) -> u64
    requires { tries ≤ MAX_TRIES }
    ensures { result ≡ expiry_after now latency tries }
{
    let wait = (2 * u128::from(latency)) << u32::from(tries.saturating_sub(1));
    let at = (u128::from(now) + wait).min(u128::from(u64::MAX));
    at as u64
}

// One try more, of which at most MAX_TRIES are counted.
fn one_more_try(tries: u8) -> u8
    ensures value { result ≡ one_more_try tries }
    ensures most { result ≤ MAX_TRIES }
{
    if tries < MAX_TRIES {
        tries + 1
    } else {
        MAX_TRIES
    }
}

// A row of which nothing is kept.
fn no_row() -> ContactRow
    ensures { result ≡ no_row }
{
    ContactRow {
        seen: false,
        owed: false,
        asked: false,
        tries: 0,
        expiry: Time::new(0),
    }
}

impl ContactRow {
    pub(crate) fn is_none(self) -> bool
        ensures { result ≡ is_no_row self }
    {
        !self.seen
            && !self.owed
            && !self.asked
            && self.tries == 0
            && self.expiry.milliseconds() == 0
    }

    // The message was offered.
    fn offered(mut self, now: u64, latency: u32) -> ContactRow
        ensures { result ≡ row_offered now latency self }
    {
        self.tries = one_more_try(self.tries);
        self.expiry = Time::new(expiry_after(now, latency, self.tries));
        self
    }

    /// Whether a try now, on a session of this latency, would set an expiry less than the one that
    /// stands, of a message that was not asked for.
    pub(crate) fn goes_sooner(self, latency: u32, now: u64) -> bool
        ensures { result ≡ goes_sooner latency now self }
    {
        let sooner = self.offered(now, latency).expiry.milliseconds();
        !self.asked && sooner < self.expiry.milliseconds()
    }

    /// The same of one that the contact has not seen.
    pub(crate) fn goes_early(self, latency: u32, now: u64) -> bool
        ensures { result ≡ goes_early latency now self }
    {
        !self.seen && self.goes_sooner(latency, now)
    }

    // What is kept of the row takes its place.
    fn tried(mut self, tried: &Tried) -> ContactRow
        ensures { result ≡ row_tried tried.now self }
    {
        self.seen = tried.seen || self.seen;
        self.owed = tried.owed;
        self.asked = tried.asked;
        self.tries = tried.tries.min(MAX_TRIES);
        self.expiry = Time::new(wait_for(tried));
        self
    }

    // The row after a change.
    fn changed(mut self, change: &RowChange) -> ContactRow
        ensures { result ≡ changed_by change.now self }
    {
        match change {
            RowChange::Heard => {
                self.seen = true;
                self.owed = true;
            }
            RowChange::Seen => self.seen = true,
            RowChange::Acked => self.owed = false,
            RowChange::Asked => {
                self.asked = true;
                self.tries = 0;
                self.expiry = Time::new(0);
            }
            RowChange::Offered(now, latency) => self = self.offered(*now, *latency),
            RowChange::Sent(now, latency) => {
                self = self.offered(*now, *latency);
                self.asked = false;
            }
            RowChange::Tried(tried) => self = self.tried(tried),
        }
        self
    }
}

// The time that is kept with so many tries.
fn wait_for(tried: &Tried) -> u64
    ensures { result ≡ wait_for tried.now.tries tried.now.expiry }
{
    if tried.tries == 0 { 0 } else { tried.expiry }
}

/// The rows. Contracts see a map of those that are not all false and zero.
#[derive(Drop)]
pub(crate) struct Rows {
    rows: BTreeMap<(u8, MessageId), ContactRow>,
}

impl Model for Rows {
    ghost use Rattle.std.specs.FinMap as fin_map;
    ghost use Rattle.sync_rules.specs.Codes.{rows_code};
    ghost use Rattle.sync_rules.specs.Facts.{Rows, pair_cmp};

    ghost Value = { Rows };

    ghost coded = { rows_code };

    ghost view = { λ r. fin_map.from_entries {R = pair_cmp} r.rows.entries };
}

impl Rows {
    /// Nothing is kept of any message.
    pub(crate) fn new(alloc: Global) -> Rows
        ensures { result ≡ fin_map.empty }
    {
        Rows {
            rows: BTreeMap::new(alloc),
        }
    }

    /// The row of a contact and a message.
    pub(crate) fn row(&self, contact: u8, id: &MessageId) -> ContactRow
        ensures { result ≡ row_at self.now contact id.now }
    {
        match self.rows.get(&(contact, *id)) {
            Some(row) => *row,
            None => no_row(),
        }
    }

    /// Changes a row, and answers it. After want of memory nothing is said of the rows.
    pub(crate) fn change(
        &mut self,
        contact: u8,
        id: MessageId,
        change: &RowChange,
    ) -> Result<ContactRow, AllocError>
        ensures row { IfOk result (λ row. row ≡ changed_by change.now (row_at self.old contact
            id)) }
        ensures rows { IfOk result (λ row. self.new ≡ change_row self.old contact id
            (changed_by change.now)) }
    {
        let row = self.row(contact, &id).changed(change);
        self.put(contact, id, row)?;
        Ok(row)
    }

    // Keeps a row, but one that is all false and zero.
    fn put(&mut self, contact: u8, id: MessageId, row: ContactRow) -> Result<(), AllocError>
        ensures { OnOk result (self.new ≡ put_row self.old (contact, id) row) }
    {
        if row.is_none() {
            self.rows.remove(&(contact, id));
            return Ok(());
        }
        self.rows.insert((contact, id), row)?;
        Ok(())
    }
}
