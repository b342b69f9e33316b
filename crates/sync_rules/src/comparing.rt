//! Whether two entries, or two outputs, are the same.
ghost use Rattle.std.specs.Prelude.{◌≡◌, true, IfOk};
ghost use Rattle.std.specs.Cmp.Lexicographic.{pointwise};
ghost use Rattle.sync_rules.specs.Allows.{id_named, ids_named, is_acks, is_again, is_arrive};
ghost use Rattle.sync_rules.specs.Allows.{is_asked, is_deliver, is_invalid, is_judged, is_offered};
ghost use Rattle.sync_rules.specs.Allows.{is_offers, is_requests, is_seen, is_send, same_entry};
ghost use Rattle.sync_rules.specs.Allows.{same_message, same_out, same_pair};

use crate::entries::{Entry, Out};
use std::alloc::{AllocError, Global};
use sync_ids::{Message, MessageId};

// ---- parts

fn same_message(a: &Message, b: &Message) -> bool
    ensures { result ≡ same_message a.now b.now }
{
    a.group() == b.group() && (a.timestamp() == b.timestamp() && a.body() == b.body())
}

fn same_pair(session: u32, id: &MessageId, other: u32, other_id: &MessageId) -> bool
    ensures { result ≡ same_pair session id.now other other_id.now }
{
    session == other && id == other_id
}

// ---- entries

fn is_arrive(session: u32, message: &Message, entry: &Entry) -> bool
    ensures { result ≡ is_arrive session message.now entry.now }
{
    match entry {
        Entry::Arrive(other, other_message) => {
            session == *other && same_message(message, other_message)
        }
        _ => false,
    }
}

fn is_again(session: u32, id: &MessageId, entry: &Entry) -> bool
    ensures { result ≡ is_again session id.now entry.now }
{
    match entry {
        Entry::Again(other, other_id) => same_pair(session, id, *other, other_id),
        _ => false,
    }
}

fn is_offered(session: u32, id: &MessageId, entry: &Entry) -> bool
    ensures { result ≡ is_offered session id.now entry.now }
{
    match entry {
        Entry::Offered(other, other_id) => same_pair(session, id, *other, other_id),
        _ => false,
    }
}

fn is_seen(session: u32, id: &MessageId, entry: &Entry) -> bool
    ensures { result ≡ is_seen session id.now entry.now }
{
    match entry {
        Entry::Seen(other, other_id) => same_pair(session, id, *other, other_id),
        _ => false,
    }
}

fn is_asked(session: u32, id: &MessageId, entry: &Entry) -> bool
    ensures { result ≡ is_asked session id.now entry.now }
{
    match entry {
        Entry::Asked(other, other_id) => same_pair(session, id, *other, other_id),
        _ => false,
    }
}

fn is_judged(id: &MessageId, entry: &Entry) -> bool
    ensures { result ≡ is_judged id.now entry.now }
{
    match entry {
        Entry::Judged(other) => id == other,
        _ => false,
    }
}

fn is_deliver(id: &MessageId, entry: &Entry) -> bool
    ensures { result ≡ is_deliver id.now entry.now }
{
    match entry {
        Entry::Deliver(other) => id == other,
        _ => false,
    }
}

fn is_invalid(id: &MessageId, entry: &Entry) -> bool
    ensures { result ≡ is_invalid id.now entry.now }
{
    match entry {
        Entry::Invalid(other) => id == other,
        _ => false,
    }
}

/// Whether two entries are the same, of the kinds that settling and records make; never for another
/// kind.
pub fn same_entry(a: &Entry, b: &Entry) -> bool
    ensures test { result ≡ same_entry a.now b.now }
    ensures same { result ≡ true → a.now ≡ b.now }
{
    is_entry(a, b)
}

fn is_entry(a: &Entry, b: &Entry) -> bool
    ensures { result ≡ same_entry a.now b.now }
{
    match a {
        Entry::Arrive(session, message) => is_arrive(*session, message, b),
        Entry::Again(session, id) => is_again(*session, id, b),
        Entry::Offered(session, id) => is_offered(*session, id, b),
        Entry::Seen(session, id) => is_seen(*session, id, b),
        Entry::Asked(session, id) => is_asked(*session, id, b),
        Entry::Judged(id) => is_judged(id, b),
        Entry::Deliver(id) => is_deliver(id, b),
        Entry::Invalid(id) => is_invalid(id, b),
        _ => false,
    }
}

/// Whether two lists have the same entries, of those kinds, in the same order.
pub fn same_entries(a: &[Entry], b: &[Entry]) -> bool
    ensures { result ≡ pointwise same_entry a.now b.now }
{
    let mut left = b;
    for entry in a {
        let Some((first, rest)) = left.split_first() else {
            return false;
        };
        if !same_entry(entry, first) {
            return false;
        }
        left = rest;
    }
    left.is_empty()
}

// ---- outputs

fn is_acks(ids: &[MessageId], what: &Out) -> bool
    ensures { result ≡ is_acks ids.now what.now }
{
    match what {
        Out::Acks(others) => ids == others.as_slice(),
        _ => false,
    }
}

fn is_requests(ids: &[MessageId], what: &Out) -> bool
    ensures { result ≡ is_requests ids.now what.now }
{
    match what {
        Out::Requests(others) => ids == others.as_slice(),
        _ => false,
    }
}

fn is_offers(ids: &[MessageId], what: &Out) -> bool
    ensures { result ≡ is_offers ids.now what.now }
{
    match what {
        Out::Offers(others) => ids == others.as_slice(),
        _ => false,
    }
}

fn is_send(id: &MessageId, what: &Out) -> bool
    ensures { result ≡ is_send id.now what.now }
{
    match what {
        Out::Send(other) => id == other,
        _ => false,
    }
}

/// Whether two outputs are the same.
pub fn same_out(a: &Out, b: &Out) -> bool
    ensures { result ≡ same_out a.now b.now }
{
    match a {
        Out::Acks(ids) => is_acks(ids.as_slice(), b),
        Out::Requests(ids) => is_requests(ids.as_slice(), b),
        Out::Offers(ids) => is_offers(ids.as_slice(), b),
        Out::Send(id) => is_send(id, b),
    }
}

// ---- ids

fn id_named(entry: &Entry) -> Option<MessageId>
    ensures { result ≡ id_named entry.now }
{
    match entry {
        Entry::Again(_, id) | Entry::Offered(_, id) | Entry::Seen(_, id) | Entry::Asked(_, id) =>
            Some(*id),
        _ => None,
    }
}

/// The ids that the entries of a heard list of ids name, in their order. It fails only for want of
/// memory.
pub fn ids_named(alloc: Global, entries: &[Entry]) -> Result<Vec<MessageId>, AllocError>
    ensures { IfOk result (λ ids. ids.items ≡ ids_named entries.now) }
{
    let mut ids = Vec::new(alloc);
    for entry in entries {
        if let Some(id) = id_named(entry) {
            ids.push(id)?;
        }
    }
    Ok(ids)
}
