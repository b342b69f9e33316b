//! The next step of a list of batches, by plain scans.
ghost use Rattle.std.specs.Prelude.{◌≡◌, ◌||◌, ◌&&◌, Bool, IfOk};
ghost use Rattle.std.specs.List.{list_all, list_any};
ghost use Rattle.std.specs.Option.{option_copied};
ghost use Rattle.sync_rules.specs.Clients.{Meaning};
ghost use Rattle.sync_rules.specs.Facts.{authored, facts, held_at};
ghost use Rattle.sync_rules.specs.Scans.{first_step_in, first_step_of, is_beside_message};
ghost use Rattle.sync_rules.specs.Scans.{is_elsewhere_message, message_of, step_brought};
ghost use Rattle.sync_rules.specs.Steps.{is_beside, is_elsewhere, is_ended, is_failing, is_served};
ghost use Rattle.sync_rules.specs.Steps.{next, step, step_accepted, step_open};

use crate::answers::{Clients, Judgement};
use crate::entries::{Batch, Entry};
use crate::lookups::{
    held_in, id_of, is_delivered_in, is_invalid_in, is_judged_in, judge_in, message_in,
};
use std::alloc::{AllocError, Global};
use sync_ids::{GroupId, Message, MessageId};

// ---- dependencies

fn is_in_group(message: Option<&Message>, group: &GroupId) -> bool
    ensures { result ≡ is_beside_message group.now (option_copied message.entry) }
{
    match message {
        Some(held) => held.group() == *group,
        None => false,
    }
}

fn is_in_another_group(message: Option<&Message>, group: &GroupId) -> bool
    ensures { result ≡ is_elsewhere_message group.now (option_copied message.entry) }
{
    match message {
        Some(held) => held.group() != *group,
        None => false,
    }
}

// Whether the dependency makes a message of this group invalid.
#[tactic(auto, using(crate::proofs::ScanLaws::elsewhere_found))]
fn is_failing_in(j: &[Batch], group: &GroupId, dependency: &MessageId) -> bool
    ensures { result ≡ is_failing (facts j.now) group.now dependency.now }
{
    is_in_another_group(held_in(j, dependency), group) || is_invalid_in(j, dependency)
}

// Whether the dependency is a delivered message of this group.
#[tactic(auto, using(crate::proofs::ScanLaws::beside_found))]
fn is_served_in(j: &[Batch], group: &GroupId, dependency: &MessageId) -> bool
    ensures { result ≡ is_served (facts j.now) group.now dependency.now }
{
    is_in_group(held_in(j, dependency), group) && is_delivered_in(j, dependency)
}

fn any_failing_in(j: &[Batch], group: &GroupId, deps: &[MessageId]) -> bool
    ensures { result ≡ list_any (is_failing (facts j.now) group.now) deps.now }
{
    deps.iter()
        .any(|dependency| is_failing_in(j, group, dependency))
}

fn all_served_in(j: &[Batch], group: &GroupId, deps: &[MessageId]) -> bool
    ensures { result ≡ list_all (is_served (facts j.now) group.now) deps.now }
{
    deps.iter()
        .all(|dependency| is_served_in(j, group, dependency))
}

// ---- one message

// The step of a message that its client accepts with these dependencies.
fn step_accepted_in(j: &[Batch], message: &Message, deps: &[MessageId]) -> Option<Entry>
    ensures { result ≡ step_accepted (facts j.now) (authored message.now) deps.now }
{
    let id = id_of(message);
    let group = message.group();
    if any_failing_in(j, &group, deps) {
        Some(Entry::Invalid(id))
    } else if all_served_in(j, &group, deps) {
        Some(Entry::Deliver(id))
    } else {
        None
    }
}

// The step of a message that has this judgement and no end.
fn step_open_in(j: &[Batch], message: &Message, judgement: &Judgement) -> Option<Entry>
    ensures { result ≡ step_open (facts j.now) (authored message.now) judgement.now }
{
    match judgement {
        Judgement::Refuse => Some(Entry::Invalid(id_of(message))),
        Judgement::Accept { deps, .. } => step_accepted_in(j, message, deps.as_slice()),
    }
}

fn is_ended_in(j: &[Batch], id: &MessageId) -> bool
    ensures { result ≡ is_ended (facts j.now) id.now }
{
    is_delivered_in(j, id) || is_invalid_in(j, id)
}

// The step of a message; it is the same wherever the message came from.
fn step_in<C: Clients>(
    alloc: Global,
    j: &[Batch],
    clients: &C,
    message: &Message,
) -> Result<Option<Entry>, AllocError>
    ensures { IfOk result (λ s. s ≡ step (C.meaning clients.now) (facts j.now)
        (authored message.now)) }
{
    let id = id_of(message);
    if !is_judged_in(j, &id) {
        return Ok(Some(Entry::Judged(id)));
    }
    if is_ended_in(j, &id) {
        return Ok(None);
    }
    let judgement = judge_in(alloc, j, clients, message)?;
    Ok(step_open_in(j, message, &judgement))
}

// ---- all messages

// The step of the message that the entry brings.
fn step_brought_in<C: Clients>(
    alloc: Global,
    j: &[Batch],
    clients: &C,
    entry: &Entry,
) -> Result<Option<Entry>, AllocError>
    ensures { IfOk result (λ s. s ≡ step_brought (C.meaning clients.now) (facts j.now)
        (message_of entry.now)) }
{
    match message_in(entry) {
        Some(message) => step_in(alloc, j, clients, message),
        None => Ok(None),
    }
}

// The first step among the messages that these entries bring.
fn first_step_among<C: Clients>(
    alloc: Global,
    j: &[Batch],
    clients: &C,
    entries: &[Entry],
) -> Result<Option<Entry>, AllocError>
    ensures { IfOk result (λ s. s ≡ first_step_of (C.meaning clients.now) (facts j.now)
        entries.now) }
{
    for entry in entries {
        if let Some(step) = step_brought_in(alloc, j, clients, entry)? {
            return Ok(Some(step));
        }
    }
    Ok(None)
}

// The first step among the messages of these batches.
fn first_step_over<C: Clients>(
    alloc: Global,
    j: &[Batch],
    clients: &C,
    batches: &[Batch],
) -> Result<Option<Entry>, AllocError>
    ensures { IfOk result (λ s. s ≡ first_step_in (C.meaning clients.now) (facts j.now)
        batches.now) }
{
    for batch in batches {
        if let Some(step) = first_step_among(alloc, j, clients, batch.entries())? {
            return Ok(Some(step));
        }
    }
    Ok(None)
}

/// The next step of a list of batches: that of the first held message, in order of arrival, that
/// has one. `Ok(None)` comes exactly where the list is settled. It fails only for want of memory.
pub fn next_step_in<C: Clients>(
    alloc: Global,
    j: &[Batch],
    clients: &C,
) -> Result<Option<Entry>, AllocError>
    ensures { IfOk result (λ s. s ≡ next (C.meaning clients.now) (facts j.now)) }
{
    first_step_over(alloc, j, clients, j)
}
