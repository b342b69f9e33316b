//! Plain look-ups in a list of batches: they go over all entries at each call, and their contracts
//! are the definitions themselves.
ghost use Rattle.std.specs.Prelude.{◌≡◌, IfOk, MatchOption, Bool};
ghost use Rattle.std.specs.List.{list_all, list_any};
ghost use Rattle.std.specs.Option.{option_copied};
ghost use Rattle.std.specs.FinSet as fin_set;
ghost use Rattle.sync_ids.specs.Ids.{group_id_of, message_id_of};
ghost use Rattle.sync_rules.specs.Clients.{Meaning};
ghost use Rattle.sync_rules.specs.Facts.{authored, facts, group_at, held_at, level_at};
ghost use Rattle.sync_rules.specs.Lists.{is_among};
ghost use Rattle.sync_rules.specs.Scans.{any_entry, def_at, def_named, def_of, first_def};
ghost use Rattle.sync_rules.specs.Scans.{first_def_in, first_message, first_message_in};
ghost use Rattle.sync_rules.specs.Scans.{first_step_in, first_step_of, last_level, last_level_in};
ghost use Rattle.sync_rules.specs.Scans.{level_then, message_at, message_named, message_of};
ghost use Rattle.sync_rules.specs.Steps.{fate, fate_held, is_failing, is_served, next, step};
ghost use Rattle.sync_rules.specs.Steps.{step_accepted, step_open, verdict_in};
ghost use Rattle.sync_rules.specs.EntryTests.{delivers, invalidates, judges};

use crate::answers::{Clients, Judgement};
use crate::entries::{Batch, Entry, Level};
use crate::states::Fate;
use std::alloc::{AllocError, Global};
use sync_ids::{GroupDef, GroupId, Message, MessageId, group_id, message_id};

// ---- one entry

fn entry_judges(entry: &Entry, id: &MessageId) -> bool
    ensures { result ≡ judges id.now entry.now }
{
    match entry {
        Entry::Judged(judged) => judged == id,
        _ => false,
    }
}

fn entry_delivers(entry: &Entry, id: &MessageId) -> bool
    ensures { result ≡ delivers id.now entry.now }
{
    match entry {
        Entry::Deliver(delivered) => delivered == id,
        _ => false,
    }
}

fn entry_invalidates(entry: &Entry, id: &MessageId) -> bool
    ensures { result ≡ invalidates id.now entry.now }
{
    match entry {
        Entry::Invalid(invalid) => invalid == id,
        _ => false,
    }
}

/// The message that an entry brings.
pub fn message_in(entry: &Entry) -> Option<&Message>
    ensures { option_copied result ≡ message_of entry.now }
{
    match entry {
        Entry::Author(message) | Entry::Arrive(_, message) | Entry::Kept(_, message) => {
            Some(message)
        }
        _ => None,
    }
}

// The definition that an entry adds.
fn def_in(entry: &Entry) -> Option<&GroupDef>
    ensures { option_copied result ≡ def_of entry.now }
{
    match entry {
        Entry::Group(def) => Some(def),
        _ => None,
    }
}

/// The id of a message (BSP, "Message identifiers").
pub fn id_of(message: &Message) -> MessageId
    ensures { result ≡ message_id_of message.now }
{
    message_id(&message.group(), message.timestamp(), message.body())
}

// The message of this id, where the entry brings it.
fn message_named_in<'a>(entry: &'a Entry, id: &MessageId) -> Option<&'a Message>
    ensures { option_copied result ≡ message_named id.now (message_of entry.now) }
{
    let message = message_in(entry)?;
    if id_of(message) == *id {
        Some(message)
    } else {
        None
    }
}

// The definition of this id, where the entry adds it.
fn def_named_in<'a>(entry: &'a Entry, id: &GroupId) -> Option<&'a GroupDef>
    ensures { option_copied result ≡ def_named id.now (def_of entry.now) }
{
    let def = def_in(entry)?;
    if group_id(def) == *id {
        Some(def)
    } else {
        None
    }
}

// ---- entries

fn has_judged(entries: &[Entry], id: &MessageId) -> bool
    ensures { result ≡ list_any (judges id.now) entries.now }
{
    entries.iter().any(|entry| entry_judges(entry, id))
}

fn has_delivered(entries: &[Entry], id: &MessageId) -> bool
    ensures { result ≡ list_any (delivers id.now) entries.now }
{
    entries.iter().any(|entry| entry_delivers(entry, id))
}

fn has_invalid(entries: &[Entry], id: &MessageId) -> bool
    ensures { result ≡ list_any (invalidates id.now) entries.now }
{
    entries.iter().any(|entry| entry_invalidates(entry, id))
}

/// The first message of this id among those that the entries bring.
pub fn find_message<'a>(entries: &'a [Entry], id: &MessageId) -> Option<&'a Message>
    ensures { option_copied result ≡ first_message id.now entries.now }
{
    for entry in entries {
        if let Some(message) = message_named_in(entry, id) {
            return Some(message);
        }
    }
    None
}

fn find_def<'a>(entries: &'a [Entry], id: &GroupId) -> Option<&'a GroupDef>
    ensures { option_copied result ≡ first_def id.now entries.now }
{
    for entry in entries {
        if let Some(def) = def_named_in(entry, id) {
            return Some(def);
        }
    }
    None
}

fn level_after(entries: &[Entry], contact: u8, group: &GroupId, start: Level) -> Level
    ensures { result ≡ last_level contact group.now start entries.now }
{
    let mut last = start;
    for entry in entries {
        last = level_after_one(entry, contact, group, last);
    }
    last
}

fn level_after_one(entry: &Entry, contact: u8, group: &GroupId, before: Level) -> Level
    ensures { result ≡ level_then contact group.now before entry.now }
{
    match entry {
        Entry::Level(c, g, level) => {
            if contact == *c && group == g {
                *level
            } else {
                before
            }
        }
        _ => before,
    }
}

// ---- batches

fn any_judged(j: &[Batch], id: &MessageId) -> bool
    ensures { result ≡ any_entry (judges id.now) j.now }
{
    for batch in j {
        if has_judged(batch.entries(), id) {
            return true;
        }
    }
    false
}

fn any_delivered(j: &[Batch], id: &MessageId) -> bool
    ensures { result ≡ any_entry (delivers id.now) j.now }
{
    for batch in j {
        if has_delivered(batch.entries(), id) {
            return true;
        }
    }
    false
}

fn any_invalid(j: &[Batch], id: &MessageId) -> bool
    ensures { result ≡ any_entry (invalidates id.now) j.now }
{
    for batch in j {
        if has_invalid(batch.entries(), id) {
            return true;
        }
    }
    false
}

fn find_message_in<'a>(j: &'a [Batch], id: &MessageId) -> Option<&'a Message>
    ensures { option_copied result ≡ first_message_in id.now j.now }
{
    for batch in j {
        if let Some(message) = find_message(batch.entries(), id) {
            return Some(message);
        }
    }
    None
}

fn find_def_in<'a>(j: &'a [Batch], id: &GroupId) -> Option<&'a GroupDef>
    ensures { option_copied result ≡ first_def_in id.now j.now }
{
    for batch in j {
        if let Some(def) = find_def(batch.entries(), id) {
            return Some(def);
        }
    }
    None
}

fn last_level_over(j: &[Batch], contact: u8, group: &GroupId) -> Level
    ensures { result ≡ last_level_in contact group.now Level.Invisible j.now }
{
    let mut last = Level::Invisible;
    for batch in j {
        last = level_after(batch.entries(), contact, group, last);
    }
    last
}

// ---- the facts

/// Whether the message of this id was judged.
#[tactic(auto, using(crate::proofs::ScanLaws::judged_found))]
pub fn is_judged_in(j: &[Batch], id: &MessageId) -> bool
    ensures { result ≡ fin_set.contains (facts j.now).judged id.now }
{
    any_judged(j, id)
}

/// Whether the message of this id was delivered.
#[tactic(auto, using(crate::proofs::ScanLaws::delivered_found))]
pub fn is_delivered_in(j: &[Batch], id: &MessageId) -> bool
    ensures { result ≡ is_among (facts j.now).delivered id.now }
{
    any_delivered(j, id)
}

/// Whether the message of this id is invalid.
#[tactic(auto, using(crate::proofs::ScanLaws::invalid_found))]
pub fn is_invalid_in(j: &[Batch], id: &MessageId) -> bool
    ensures { result ≡ fin_set.contains (facts j.now).invalid id.now }
{
    any_invalid(j, id)
}

/// The first held message of this id.
#[tactic(auto, using(crate::proofs::ScanLaws::held_found))]
pub fn held_in<'a>(j: &'a [Batch], id: &MessageId) -> Option<&'a Message>
    ensures { option_copied result ≡ message_at (held_at (facts j.now).held id.now) }
{
    find_message_in(j, id)
}

/// The first known definition of this group id.
#[tactic(auto, using(crate::proofs::ScanLaws::group_found))]
pub fn group_in<'a>(j: &'a [Batch], id: &GroupId) -> Option<&'a GroupDef>
    ensures { option_copied result ≡ def_at (group_at (facts j.now).groups id.now) }
{
    find_def_in(j, id)
}

/// What the client of the message's group says of it; Refuse where the group or its client is not
/// known. It fails only for want of memory.
pub fn judge_in<C: Clients>(
    alloc: Global,
    j: &[Batch],
    clients: &C,
    message: &Message,
) -> Result<Judgement, AllocError>
    ensures { IfOk result (λ a. a ≡ verdict_in (C.meaning clients.now) (facts j.now).groups
        message.now) }
{
    let Some(def) = group_in(j, &message.group()) else {
        return Ok(Judgement::Refuse);
    };
    let Some(kind) = clients.kind_of(def.name(), def.major()) else {
        return Ok(Judgement::Refuse);
    };
    clients.judge(alloc, kind, message)
}

/// The group's level for the contact: what the last Level entry of the pair says, else Invisible.
/// It takes no memory.
#[tactic(auto, using(crate::proofs::ScanLaws::level_found))]
pub fn level_in(j: &[Batch], contact: u8, group: &GroupId) -> Level
    ensures { result ≡ level_at (facts j.now).levels contact group.now }
{
    last_level_over(j, contact, group)
}

/// The state of the message of this id. `None` comes exactly where the id is not held. It takes no
/// memory.
pub fn fate_in(j: &[Batch], id: &MessageId) -> Option<Fate>
    ensures { result ≡ fate (facts j.now) id.now }
{
    held_in(j, id)?;
    Some(fate_of_held(j, id))
}

fn fate_of_held(j: &[Batch], id: &MessageId) -> Fate
    ensures { result ≡ fate_held (facts j.now) id.now }
{
    if is_invalid_in(j, id) {
        return Fate::Invalid;
    }
    if is_delivered_in(j, id) {
        return Fate::Delivered;
    }
    if is_judged_in(j, id) {
        Fate::Pending
    } else {
        Fate::Unknown
    }
}
