//! What is kept of one message for one contact.
ghost use Rattle.std.specs.Prelude.{◌≡◌, ◌≤◌, ◌<◌, ◌^◌, true, false};
ghost use Rattle.sync_rules.specs.Facts.{one_more_try, expiry_after, row_seen, row_acked};
ghost use Rattle.sync_rules.specs.Facts.{row_asked, row_sent, row_offered};
ghost use Rattle.retry_table.specs.Table.{no_kept, with_row, with_ready, row_owed, row_restored};
ghost use Rattle.retry_table.specs.Table.{tried_of};
ghost use Rattle.retry_table.specs.Due.{may_be_sent};
ghost use Rattle.retry_table.specs.Queues.{message_place, is_awaited, is_sought, offer_place};
ghost use Rattle.retry_table.specs.Queues.{sooner_bound, sooner_place};
ghost use Rattle.sync_rules.specs.Sessions.{goes_sooner, is_ripe};

use std::marker::Model;
use sync_ids::MessageId;
use sync_rules::{Mode, Tried};

/// The most tries that are counted.
const MOST_TRIES: u8 = 64;

/// What is sought among the rows: a message to be sent, or one to be offered, at a time; or one that
/// goes before its time by a session of a latency.
#[derive(Clone, Copy)]
pub(crate) enum Sought {
    Message(Mode, u64),
    Offer(u64),
    Sooner(u32, u64),
}

/// What is kept of one message for one contact. Contracts see the row, and whether the message is
/// ready.
#[derive(Clone, Copy)]
pub(crate) struct KeptRow {
    seen: bool,
    owed: bool,
    asked: bool,
    ready: bool,
    tries: u8,
    expiry: u64,
}

impl Model for KeptRow {
    ghost use Rattle.retry_table.specs.Table.{KeptRow};

    ghost Value = { KeptRow };

    ghost view = { λ r. record {
      ready = r.ready;
      row = record {
        seen = r.seen;
        owed = r.owed;
        asked =
            r.asked;
        tries = r.tries;
        expiry = r.expiry;
      };
    } };

    ghost inverse = { λ k. record {
      seen = k.row.seen;
      owed = k.row.owed;
      asked = k.row.asked;
      ready
          = k.ready;
      tries = k.row.tries;
      expiry = k.row.expiry;
    } };
}

/// The time in milliseconds from which a message may be sent or offered again after so many tries,
/// the last one at `now`: two ways of the latency, doubled with each try (BSP, "Retransmission"),
/// and at most `u64::MAX`.
fn expiry_after(now: u64, latency: u32, tries: u8) -> u64
    requires { tries ≤ 64 }
    ensures { result ≡ expiry_after now latency tries }
{
    let wait = (2 * u128::from(latency)) << u32::from(tries.saturating_sub(1));
    let at = (u128::from(now) + wait).min(u128::from(u64::MAX));
    at as u64
}

/// One try more, of which at most 64 are counted.
fn one_more_try(tries: u8) -> u8
    ensures value { result ≡ one_more_try tries }
    ensures most { result ≤ 64 }
{
    if tries < MOST_TRIES {
        tries + 1
    } else {
        MOST_TRIES
    }
}

/// The bound for what goes before its time by a session of this latency, of those that were tried so
/// often.
pub(crate) fn sooner_bound(latency: u32, now: u64, tries: u8) -> Option<u64>
    ensures { result ≡ sooner_bound latency now tries }
{
    let expiry = expiry_after(now, latency, one_more_try(tries));
    if expiry < u64::MAX {
        Some(u64::MAX - 1 - expiry)
    } else {
        None
    }
}

impl KeptRow {
    /// What is kept of a message of which nothing is known.
    pub(crate) fn none() -> KeptRow
        ensures { result ≡ no_kept }
    {
        KeptRow {
            seen: false,
            owed: false,
            asked: false,
            ready: false,
            tries: 0,
            expiry: 0,
        }
    }

    /// Whether the contact has the message.
    pub(crate) fn is_seen(self) -> bool
        ensures { result ≡ self.row.seen }
    {
        self.seen
    }

    /// The time from which it may be sent or offered again.
    pub(crate) fn expiry(self) -> u64
        ensures { result ≡ self.row.expiry }
    {
        self.expiry
    }

    /// How often it was sent or offered. Its expiry is one that a clock can tell.
    pub(crate) fn tries(self) -> u8
        ensures value { result ≡ self.row.tries }
        ensures told { self.row.expiry < 2 ^ 64 }
    {
        self.tries
    }

    /// An acknowledgement is owed.
    pub(crate) fn owe(mut self) -> KeptRow
        ensures { result ≡ with_row row_owed self }
    {
        self.owed = true;
        self
    }

    /// None is owed.
    pub(crate) fn pay(mut self) -> KeptRow
        ensures { result ≡ with_row row_acked self }
    {
        self.owed = false;
        self
    }

    /// The contact asked for the message, which is due at once.
    pub(crate) fn ask(mut self) -> KeptRow
        ensures { result ≡ with_row row_asked self }
    {
        self.asked = true;
        self.tries = 0;
        self.expiry = 0;
        self
    }

    /// The contact has the message.
    pub(crate) fn see(mut self) -> KeptRow
        ensures { result ≡ with_row row_seen self }
    {
        self.seen = true;
        self
    }

    /// The message was offered.
    pub(crate) fn offer(mut self, now: u64, latency: u32) -> KeptRow
        ensures { result ≡ with_row (row_offered now latency) self }
    {
        self.tries = one_more_try(self.tries);
        self.expiry = expiry_after(now, latency, self.tries);
        self
    }

    /// The message was sent.
    pub(crate) fn send(self, now: u64, latency: u32) -> KeptRow
        ensures { result ≡ with_row (row_sent now latency) self }
    {
        let mut sent = self.offer(now, latency);
        sent.asked = false;
        sent
    }

    /// This is stated of the message.
    pub(crate) fn restore(mut self, tried: &Tried) -> KeptRow
        ensures { result ≡ with_row (row_restored tried.now) self }
    {
        self.seen = tried.seen;
        self.owed = tried.owed;
        self.asked = tried.asked;
        self.tries = tried.tries;
        self.expiry = tried.expiry;
        self
    }

    /// What is kept, as it may be stated of a message of this id for this contact.
    pub(crate) fn tried(self, contact: u8, id: MessageId) -> Tried
        ensures { result ≡ tried_of contact id self.row }
    {
        Tried {
            contact,
            id,
            seen: self.seen,
            owed: self.owed,
            asked: self.asked,
            tries: self.tries,
            expiry: self.expiry,
        }
    }

    /// Whether the message is ready.
    pub(crate) fn is_ready(self) -> bool
        ensures { result ≡ self.ready }
    {
        self.ready
    }

    /// The message is ready or not.
    pub(crate) fn make_ready(mut self, ready: bool) -> KeptRow
        ensures { result ≡ with_ready ready self }
    {
        self.ready = ready;
        self
    }

    /// Whether the message may be sent to the contact.
    fn is_open(self) -> bool
        ensures { result ≡ may_be_sent self }
    {
        self.ready && !self.seen
    }

    /// The place in the queue of messages for batch mode.
    pub(crate) fn message_place(self) -> Option<u64>
        ensures { result ≡ message_place self }
    {
        if self.is_open() {
            Some(self.expiry)
        } else {
            None
        }
    }

    /// Whether the message may be sent to the contact, which asked for it.
    pub(crate) fn is_awaited(self) -> bool
        ensures { result ≡ is_awaited self }
    {
        self.is_open() && self.asked
    }

    /// The place in the queue of offers.
    pub(crate) fn offer_place(self) -> Option<u64>
        ensures { result ≡ offer_place self }
    {
        if self.is_open() && !self.asked {
            Some(self.expiry)
        } else {
            None
        }
    }

    /// The place in the queue of those that were tried so often and may go before their time.
    pub(crate) fn sooner_place(self, tries: u8) -> Option<u64>
        ensures { result ≡ sooner_place tries self }
    {
        if self.is_open() && !self.asked && self.tries == tries {
            Some(u64::MAX - self.expiry)
        } else {
            None
        }
    }

    /// Whether an acknowledgement is owed.
    pub(crate) fn is_owed(self) -> bool
        ensures { result ≡ self.row.owed }
    {
        self.owed
    }

    /// Whether its time has come, or the contact asked for it in interactive mode.
    fn is_ripe(self, mode: Mode, now: u64) -> bool
        ensures { result ≡ is_ripe mode now self.row }
    {
        match mode {
            Mode::Interactive => self.asked,
            Mode::Batch => self.expiry <= now,
        }
    }

    /// Whether it was not asked for, and a try now would set an expiry less than the one that stands.
    fn goes_sooner(self, latency: u32, now: u64) -> bool
        ensures { result ≡ goes_sooner latency now self.row }
    {
        !self.asked && expiry_after(now, latency, one_more_try(self.tries)) < self.expiry
    }

    /// Whether it is sought.
    pub(crate) fn is_sought(self, sought: Sought) -> bool
        ensures { result ≡ is_sought sought self }
    {
        match sought {
            Sought::Message(mode, now) => self.is_open() && self.is_ripe(mode, now),
            Sought::Offer(now) => self.is_open() && (!self.asked && self.expiry <= now),
            Sought::Sooner(latency, now) => self.is_open() && self.goes_sooner(latency, now),
        }
    }
}
