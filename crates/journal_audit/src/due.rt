//! Which held messages are owed, sent and offered to a contact.
ghost use Rattle.std.specs.Prelude.{◌≡◌, ◌&&◌, ℕ, drop, not, nat_le, IfOk, slice_get, take};
ghost use Rattle.std.specs.List.Sorted.{IsStrictlySortedBy};
ghost use Rattle.std.specs.Option.{option_copied};
ghost use Rattle.std.specs.Ordering.{nat_cmp};
ghost use Rattle.sync_rules.specs.Facts.{is_level_shared, level_at};
ghost use Rattle.sync_rules.specs.Sessions.{first_id, goes_sooner, ids_where, is_author, is_ripe};
ghost use Rattle.sync_ids.specs.declared.lists.TheConstants.{MAX_IDS};
ghost use Rattle.journal_audit.specs.Lines.{held_in};
ghost use Rattle.journal_audit.specs.Looks.{ids_at, is_line_sendable, is_offered, is_owed, is_sent};
ghost use Rattle.journal_audit.specs.Looks.{is_sooner};
ghost use Rattle.journal_audit.specs.Looks.{picked, seen_of};
ghost use Rattle.journal_audit.specs.Numbers.{has, has_for};
ghost use Rattle.journal_audit.specs.Plain.{IsPlainSound};
ghost use Rattle.journal_audit.specs.Standing.{may_go, set_for, shares};

use crate::facts::PlainFacts;
use crate::levels::Levels;
use crate::messages::Line;
use crate::ready::Ready;
use crate::rows::ContactRow;
use std::alloc::{AllocError, Global};
use std::collections::BTreeSet;
use sync_ids::{GroupId, MAX_IDS, MessageId};
use sync_rules::{Level, Mode, Origin};

// ---- one message

// Whether a group is Shared with the contact.
fn is_shared(levels: &Levels, contact: u8, group: &GroupId) -> bool
    ensures { result ≡ is_level_shared (level_at levels.now contact group.now) }
{
    match levels.level(contact, group) {
        Level::Shared => true,
        Level::Invisible | Level::Visible => false,
    }
}

// Whether a message was written here.
fn is_author(origin: Origin) -> bool
    ensures { result ≡ is_author origin }
{
    match origin {
        Origin::Author => true,
        Origin::From(_) => false,
    }
}

/// Whether a message may go to a contact for which this row is kept, once it is judged.
pub(crate) fn may_go(levels: &Levels, contact: u8, line: &Line, row: ContactRow) -> bool
    ensures { result ≡ may_go levels.now contact line.now row }
{
    line.delivered
        && is_shared(levels, contact, &line.message.group())
        && !row.seen
        && (is_author(line.origin) || line.answer.shares())
}

// Whether a message may be sent to a contact for which this row is kept.
fn is_sendable(levels: &Levels, contact: u8, line: &Line, row: ContactRow) -> bool
    ensures { result ≡ is_line_sendable levels.now contact line.now row }
{
    line.delivered
        && is_shared(levels, contact, &line.message.group())
        && !row.seen
        && (is_author(line.origin) || (line.judged && line.answer.shares()))
}

// Whether a message of this row is to be sent now.
fn is_ripe(mode: Mode, now: u64, row: ContactRow) -> bool
    ensures { result ≡ is_ripe mode now row }
{
    match mode {
        Mode::Interactive => row.asked,
        Mode::Batch => row.expiry.milliseconds() <= now,
    }
}

// Whether a message is to be sent to a contact for which this row is kept.
fn is_sent(levels: &Levels, contact: u8, mode: Mode, now: u64, line: &Line, row: ContactRow) -> bool
    ensures { result ≡ (is_line_sendable levels.now contact line.now row && is_ripe mode now row) }
{
    is_sendable(levels, contact, line, row) && is_ripe(mode, now, row)
}

// Whether a message is to be offered to a contact for which this row is kept.
fn is_offered(levels: &Levels, contact: u8, now: u64, line: &Line, row: ContactRow) -> bool
    ensures { result ≡ (is_line_sendable levels.now contact line.now row && (not row.asked
        && nat_le row.expiry now)) }
{
    is_sendable(levels, contact, line, row) && !row.asked && row.expiry.milliseconds() <= now
}

// The id of the message of this number, where it waits for an acknowledgement to the contact.
fn owed_at(facts: &PlainFacts, contact: u8, n: u32) -> Option<MessageId>
    ensures { result ≡ picked (is_owed (seen_of facts.now) contact)
        (slice_get (held_in facts.now.messages.lines) n) }
{
    let line = facts.messages.get(n)?;
    if facts.rows.row(contact, &line.id).owed {
        Some(line.id)
    } else {
        None
    }
}

// The id of the message of this number, where it is to be sent to the contact.
fn sent_at(facts: &PlainFacts, contact: u8, mode: Mode, now: u64, n: u32) -> Option<MessageId>
    requires { IsPlainSound facts.now }
    ensures { result ≡ picked (is_sent (seen_of facts.now) contact mode now)
        (slice_get (held_in facts.now.messages.lines) n) }
{
    let line = facts.messages.get(n)?;
    let row = facts.rows.row(contact, &line.id);
    if is_sent(&facts.levels, contact, mode, now, line, row) {
        Some(line.id)
    } else {
        None
    }
}

// The id of the message of this number, where it is to be offered to the contact.
fn offered_at(facts: &PlainFacts, contact: u8, now: u64, n: u32) -> Option<MessageId>
    requires { IsPlainSound facts.now }
    ensures { result ≡ picked (is_offered (seen_of facts.now) contact now)
        (slice_get (held_in facts.now.messages.lines) n) }
{
    let line = facts.messages.get(n)?;
    let row = facts.rows.row(contact, &line.id);
    if is_offered(&facts.levels, contact, now, line, row) {
        Some(line.id)
    } else {
        None
    }
}

// Whether a message is to go to a contact before its time.
fn is_sooner(
    levels: &Levels,
    contact: u8,
    latency: u32,
    now: u64,
    line: &Line,
    row: ContactRow,
) -> bool
    ensures { result ≡ (is_line_sendable levels.now contact line.now row && goes_sooner latency now
        row) }
{
    is_sendable(levels, contact, line, row) && row.goes_sooner(latency, now)
}

// The id of the message of this number, where it is to go to the contact before its time.
fn sooner_at(facts: &PlainFacts, contact: u8, latency: u32, now: u64, n: u32) -> Option<MessageId>
    requires { IsPlainSound facts.now }
    ensures { result ≡ picked (is_sooner (seen_of facts.now) contact latency now)
        (slice_get (held_in facts.now.messages.lines) n) }
{
    let line = facts.messages.get(n)?;
    let row = facts.rows.row(contact, &line.id);
    if is_sooner(&facts.levels, contact, latency, now, line, row) {
        Some(line.id)
    } else {
        None
    }
}

// ---- all of them

/// The ids of the messages of these numbers that wait for an acknowledgement to the contact, at
/// most the first MAX_IDS of them.
pub(crate) fn owed_ids(
    alloc: Global,
    facts: &PlainFacts,
    contact: u8,
    numbers: &BTreeSet<u32>,
) -> Result<Vec<MessageId>, AllocError>
    ensures { IfOk result (λ ids. ids.items ≡ take MAX_IDS (ids_at
        (is_owed (seen_of facts.now) contact) (held_in facts.now.messages.lines)
        numbers.now.keys)) }
{
    let mut ids = Vec::new(alloc);
    for n in numbers {
        if ids.len() >= MAX_IDS {
            break;
        }
        if let Some(id) = owed_at(facts, contact, *n) {
            ids.push(id)?;
        }
    }
    ids.truncate(MAX_IDS);
    Ok(ids)
}

/// The numbers of the messages that may be sent to a contact in this mode, and maybe of more.
pub(crate) fn numbers_for(ready: &Ready, contact: u8, mode: Mode) -> &BTreeSet<u32>
    ensures value { (n : ℕ) → has result.now.keys n ≡ has_for (set_for ready.now mode) contact n }
    ensures ascends { IsStrictlySortedBy nat_cmp result.now.keys }
{
    match mode {
        Mode::Interactive => ready.asked.of(contact),
        Mode::Batch => ready.awake.of(contact),
    }
}

/// The first of the messages of these numbers that is to be sent to the contact.
pub(crate) fn first_sent(
    facts: &PlainFacts,
    contact: u8,
    mode: Mode,
    now: u64,
    numbers: &BTreeSet<u32>,
) -> Option<MessageId>
    requires { IsPlainSound facts.now }
    ensures { result ≡ first_id (ids_at (is_sent (seen_of facts.now) contact mode now)
        (held_in facts.now.messages.lines) numbers.now.keys) }
{
    for n in numbers {
        if let Some(id) = sent_at(facts, contact, mode, now, *n) {
            return Some(id);
        }
    }
    None
}

/// The first message that is to be sent to the contact.
pub(crate) fn first_sent_of_all(
    facts: &PlainFacts,
    contact: u8,
    mode: Mode,
    now: u64,
) -> Option<MessageId>
    requires { IsPlainSound facts.now }
    ensures { result ≡ first_id (ids_where (is_sent (seen_of facts.now) contact mode now)
        (held_in facts.now.messages.lines)) }
{
    for n in 0..facts.messages.len() {
        if let Some(id) = sent_at(facts, contact, mode, now, n) {
            return Some(id);
        }
    }
    None
}

/// The ids of the messages of these numbers that are to be offered to the contact, at most the first
/// MAX_IDS of them.
pub(crate) fn offered_ids(
    alloc: Global,
    facts: &PlainFacts,
    contact: u8,
    now: u64,
    numbers: &BTreeSet<u32>,
) -> Result<Vec<MessageId>, AllocError>
    requires { IsPlainSound facts.now }
    ensures { IfOk result (λ ids. ids.items ≡ take MAX_IDS (ids_at
        (is_offered (seen_of facts.now) contact now) (held_in facts.now.messages.lines)
        numbers.now.keys)) }
{
    let mut ids = Vec::new(alloc);
    for n in numbers {
        if ids.len() >= MAX_IDS {
            break;
        }
        if let Some(id) = offered_at(facts, contact, now, *n) {
            ids.push(id)?;
        }
    }
    ids.truncate(MAX_IDS);
    Ok(ids)
}

/// The ids of the messages that are to be offered to the contact, at most the first MAX_IDS of them.
pub(crate) fn offered_of_all(
    alloc: Global,
    facts: &PlainFacts,
    contact: u8,
    now: u64,
) -> Result<Vec<MessageId>, AllocError>
    requires { IsPlainSound facts.now }
    ensures { IfOk result (λ ids. ids.items ≡ take MAX_IDS (ids_where
        (is_offered (seen_of facts.now) contact now) (held_in facts.now.messages.lines))) }
{
    let mut ids = Vec::new(alloc);
    for n in 0..facts.messages.len() {
        if ids.len() >= MAX_IDS {
            break;
        }
        if let Some(id) = offered_at(facts, contact, now, n) {
            ids.push(id)?;
        }
    }
    ids.truncate(MAX_IDS);
    Ok(ids)
}

/// The first message from a number on that is to be sent to the contact before its time.
pub(crate) fn first_sooner(
    facts: &PlainFacts,
    contact: u8,
    latency: u32,
    now: u64,
    from: u32,
) -> Option<MessageId>
    requires { IsPlainSound facts.now }
    ensures { result ≡ first_id (ids_where (is_sooner (seen_of facts.now) contact latency now)
        (drop from (held_in facts.now.messages.lines))) }
{
    for n in from..facts.messages.len() {
        if let Some(id) = sooner_at(facts, contact, latency, now, n) {
            return Some(id);
        }
    }
    None
}

/// The ids of the messages from a number on that are to be offered to the contact before their time,
/// at most the first MAX_IDS of them.
pub(crate) fn sooner_ids(
    alloc: Global,
    facts: &PlainFacts,
    contact: u8,
    latency: u32,
    now: u64,
    from: u32,
) -> Result<Vec<MessageId>, AllocError>
    requires { IsPlainSound facts.now }
    ensures { IfOk result (λ ids. ids.items ≡ take MAX_IDS (ids_where
        (is_sooner (seen_of facts.now) contact latency now)
        (drop from (held_in facts.now.messages.lines)))) }
{
    let mut ids = Vec::new(alloc);
    for n in from..facts.messages.len() {
        if ids.len() >= MAX_IDS {
            break;
        }
        if let Some(id) = sooner_at(facts, contact, latency, now, n) {
            ids.push(id)?;
        }
    }
    ids.truncate(MAX_IDS);
    Ok(ids)
}
