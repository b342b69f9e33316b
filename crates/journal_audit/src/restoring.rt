//! Whether rows and wanted ids may be stated, by a brief account.
ghost use Rattle.std.specs.Prelude.{◌≡◌, ◌&&◌, ◌||◌, not, nat_eq, nat_le};
ghost use Rattle.sync_rules.specs.Legal.{is_empty_row};
ghost use Rattle.sync_rules.specs.Allows.{may_restore, may_want, suits_rows};
ghost use Rattle.journal_audit.specs.Plain.{facts_of};

use crate::facts::PlainFacts;
use sync_ids::MessageId;
use sync_rules::{Entry, MAX_TRIES, MAX_WANTED, Tried};

// Whether nothing is kept of a message for a contact.
fn is_empty_row(tried: &Tried) -> bool
    ensures { result ≡ is_empty_row tried.now }
{
    !tried.seen && (!tried.owed && (!tried.asked && tried.tries == 0))
}

// Whether what is stated keeps its limits: at most `MAX_TRIES` tries, and no time without a try.
fn keeps_limits(tried: &Tried) -> bool
    ensures { result ≡ (nat_le tried.now.tries MAX_TRIES && (not (nat_eq tried.now.tries 0)
        || nat_eq tried.now.expiry 0)) }
{
    tried.tries <= MAX_TRIES && (tried.tries != 0 || tried.expiry == 0)
}

// Whether a row may be stated.
fn may_restore(facts: &PlainFacts, tried: &Tried) -> bool
    ensures { result ≡ may_restore (facts_of facts.now) tried.now }
{
    if u32::from(tried.contact) >= facts.contacts || facts.messages.find(&tried.id).is_none() {
        return false;
    }
    if !keeps_limits(tried) || is_empty_row(tried) {
        return false;
    }
    facts.rows.row(tried.contact, &tried.id).is_none()
}

// Whether an id may be stated as wanted from a contact.
fn may_want(facts: &PlainFacts, contact: u8, id: &MessageId) -> bool
    ensures { result ≡ may_want (facts_of facts.now) contact id.now }
{
    if u32::from(contact) >= facts.contacts || facts.messages.find(id).is_some() {
        return false;
    }
    let wanted = facts.wants.ids(contact);
    !wanted.contains(id) && wanted.len() < MAX_WANTED as usize
}

/// Whether an entry is a row or a wanted id that may be stated.
pub(crate) fn suits_rows(facts: &PlainFacts, entry: &Entry) -> bool
    ensures { result ≡ suits_rows (facts_of facts.now) entry.now }
{
    match entry {
        Entry::Tried(tried) => may_restore(facts, tried),
        Entry::Want(contact, id) => may_want(facts, *contact, id),
        _ => false,
    }
}
