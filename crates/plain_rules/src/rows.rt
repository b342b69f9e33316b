//! The row of a contact and a message, by going over all entries.
ghost use Rattle.plain_rules.specs.Rows.{row_then, row_then_out};
ghost use Rattle.std.specs.Prelude.{◌≡◌, ◌≤◌, ◌&&◌, cond, nat_eq};
ghost use Rattle.sync_rules.specs.Facts.{after_all, contact_of, expiry_after, facts, row_acked};
ghost use Rattle.sync_rules.specs.Facts.{row_asked, row_at, row_heard, row_offered, row_seen};
ghost use Rattle.sync_rules.specs.Facts.{row_sent, row_tried};
ghost use Rattle.sync_rules.specs.Lists.{is_among, same_id};

use crate::sessions::{contact_before, latency_before};
use std::marker::Model;
use sync_ids::MessageId;
use sync_rules::{Batch, Entry, MAX_TRIES, Out, Tried, id_of};

// What is kept of a message for a contact.
#[derive(Clone, Copy, Debug)]
pub(crate) struct PlainRow {
    pub(crate) seen: bool,
    pub(crate) owed: bool,
    pub(crate) asked: bool,
    pub(crate) tries: u8,
    pub(crate) expiry: u64,
}

impl Model for PlainRow {
    ghost use Rattle.std.specs.Prelude.{◌≤◌};
    ghost use Rattle.sync_rules.specs.Facts.{Row};
    ghost use Rattle.sync_rules.specs.declared.limits.TheConstants.{MAX_TRIES};

    ghost Value = { Row };

    ghost view = { λ r. record {
      seen = r.seen;
      owed = r.owed;
      asked = r.asked;
      tries = r.tries;
      expiry = r.expiry;
    } };

    ghost invariant = { λ r. r.tries ≤ MAX_TRIES };

    ghost inverse = { λ r. record {
      seen = r.seen;
      owed = r.owed;
      asked = r.asked;
      tries = r.tries;
      expiry = r.expiry;
    } };
}

// The time from which a message may be sent or offered again after so many tries, the last one at
// `now`.
fn expiry_of(now: u64, latency: u32, tries: u8) -> u64
    requires { 1 ≤ tries }
    ensures { result ≡ expiry_after now latency tries }
{
    let mut wait = 2 * u64::from(latency);
    for tried in 1..tries {
        wait = wait.saturating_mul(2);
    }
    now.saturating_add(wait)
}

pub(crate) fn offered(row: PlainRow, now: u64, latency: u32) -> PlainRow
    ensures { result ≡ row_offered now latency row }
{
    let tries = if row.tries < MAX_TRIES {
        row.tries + 1
    } else {
        MAX_TRIES
    };
    PlainRow {
        seen: row.seen,
        owed: row.owed,
        asked: row.asked,
        tries,
        expiry: expiry_of(now, latency, tries),
    }
}

fn sent(row: PlainRow, now: u64, latency: u32) -> PlainRow
    ensures { result ≡ row_sent now latency row }
{
    let offered = offered(row, now, latency);
    PlainRow {
        asked: false,
        seen: offered.seen,
        owed: offered.owed,
        tries: offered.tries,
        expiry: offered.expiry,
    }
}

fn heard(row: PlainRow) -> PlainRow
    ensures { result ≡ row_heard row }
{
    PlainRow {
        seen: true,
        owed: true,
        asked: row.asked,
        tries: row.tries,
        expiry: row.expiry,
    }
}

fn seen(row: PlainRow) -> PlainRow
    ensures { result ≡ row_seen row }
{
    PlainRow {
        seen: true,
        owed: row.owed,
        asked: row.asked,
        tries: row.tries,
        expiry: row.expiry,
    }
}

fn acked(row: PlainRow) -> PlainRow
    ensures { result ≡ row_acked row }
{
    PlainRow {
        seen: row.seen,
        owed: false,
        asked: row.asked,
        tries: row.tries,
        expiry: row.expiry,
    }
}

fn asked(row: PlainRow) -> PlainRow
    ensures { result ≡ row_asked row }
{
    PlainRow {
        seen: row.seen,
        owed: row.owed,
        asked: true,
        tries: 0,
        expiry: 0,
    }
}

fn tried(row: PlainRow, kept: &Tried) -> PlainRow
    ensures { result ≡ row_tried kept.now row }
{
    let tries = if kept.tries < MAX_TRIES {
        kept.tries
    } else {
        MAX_TRIES
    };
    PlainRow {
        seen: kept.seen || row.seen,
        owed: kept.owed,
        asked: kept.asked,
        tries,
        expiry: if kept.tries == 0 { 0 } else { kept.expiry },
    }
}

pub(crate) fn is_in(ids: &[MessageId], id: &MessageId) -> bool
    ensures { result ≡ is_among ids.now id.now }
{
    ids.contains(id)
}

// The changed row where the test says yes, else the row.
fn changed_if(yes: bool, row: PlainRow, changed: PlainRow) -> PlainRow
    ensures { result ≡ cond yes changed row }
{
    if yes { changed } else { row }
}

// The row after an output to the contact.
fn row_after_out(row: PlainRow, id: &MessageId, now: u64, latency: u32, what: &Out) -> PlainRow
    ensures { result ≡ row_then_out id.now now latency row what.now }
{
    match what {
        Out::Acks(ids) => changed_if(is_in(ids.as_slice(), id), row, acked(row)),
        Out::Requests(_) => row,
        Out::Offers(ids) => {
            if is_in(ids.as_slice(), id) {
                offered(row, now, latency)
            } else {
                row
            }
        }
        Out::Send(x) => {
            if x == id {
                sent(row, now, latency)
            } else {
                row
            }
        }
    }
}

// Whether an entry of this session names the contact and the message.
fn is_pair(
    earlier: &[Batch],
    before: &[Entry],
    session: u32,
    named: &MessageId,
    contact: u8,
    id: &MessageId,
) -> bool
    ensures { result
        ≡ (nat_eq contact (contact_of (after_all (facts earlier.now) before.now).sessions session)
        && same_id named.now id.now) }
{
    contact == contact_before(earlier, before, session) && named == id
}

// The row after the entry that stands behind these batches and entries.
fn row_after_one(
    earlier: &[Batch],
    before: &[Entry],
    entry: &Entry,
    contact: u8,
    id: &MessageId,
    row: PlainRow,
) -> PlainRow
    ensures { result ≡ row_then contact id.now (after_all (facts earlier.now) before.now) row
        entry.now }
{
    match entry {
        Entry::Arrive(session, message) => {
            let named = is_pair(earlier, before, *session, &id_of(message), contact, id);
            changed_if(named, row, heard(row))
        }
        Entry::Again(session, other) => {
            let named = is_pair(earlier, before, *session, other, contact, id);
            changed_if(named, row, heard(row))
        }
        Entry::Seen(session, other) => {
            let named = is_pair(earlier, before, *session, other, contact, id);
            changed_if(named, row, seen(row))
        }
        Entry::Asked(session, other) => {
            let named = is_pair(earlier, before, *session, other, contact, id);
            changed_if(named, row, asked(row))
        }
        Entry::Out(session, now, what) => {
            if contact == contact_before(earlier, before, *session) {
                let latency = latency_before(earlier, before, *session);
                row_after_out(row, id, *now, latency, what)
            } else {
                row
            }
        }
        Entry::Tried(kept) => {
            let named = contact == kept.contact && kept.id == *id;
            changed_if(named, row, tried(row, kept))
        }
        _ => row,
    }
}

// The row after the entries of the batch that stands behind these.
fn row_after_batch(
    earlier: &[Batch],
    entries: &[Entry],
    contact: u8,
    id: &MessageId,
    start: PlainRow,
) -> PlainRow
    requires { start ≡ row_at (facts earlier.now).rows contact id.now }
    ensures { result ≡ row_at (after_all (facts earlier.now) entries.now).rows contact id.now }
{
    let mut row = start;
    for (k, entry) in entries.iter().enumerate() {
        row = row_after_one(earlier, &entries[..k], entry, contact, id, row);
    }
    row
}

// The row of a contact and a message.
pub(crate) fn row_of(j: &[Batch], contact: u8, id: &MessageId) -> PlainRow
    ensures { result ≡ row_at (facts j.now).rows contact id.now }
{
    let mut row = PlainRow {
        seen: false,
        owed: false,
        asked: false,
        tries: 0,
        expiry: 0,
    };
    for (i, batch) in j.iter().enumerate() {
        row = row_after_batch(&j[..i], batch.entries(), contact, id, row);
    }
    row
}
