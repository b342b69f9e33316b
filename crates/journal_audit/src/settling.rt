//! The next step of a journal.
ghost use Rattle.std.specs.Prelude.{◌≡◌, slice_get};
ghost use Rattle.std.specs.List.{list_all, list_any};
ghost use Rattle.sync_rules.specs.Clients.{Meaning};
ghost use Rattle.sync_rules.specs.Steps.{is_failing, is_served, next, step_accepted, step_open};
ghost use Rattle.journal_audit.specs.Lines.{AreLines, held_of};
ghost use Rattle.journal_audit.specs.Looks.{first_at, step_at, step_of_line};
ghost use Rattle.journal_audit.specs.Plain.{IsPlainSound, KnowsMeanings, facts_of};
ghost use Rattle.journal_audit.specs.Sleeping.{steps_of};

use crate::facts::PlainFacts;
use crate::messages::{Line, Messages};
use std::collections::BTreeSet;
use sync_ids::{GroupId, MessageId};
use sync_rules::Entry;

/// Whether a dependency of a message of this group makes the message invalid.
pub(crate) fn is_failing(messages: &Messages, group: &GroupId, id: &MessageId) -> bool
    requires { AreLines messages.now }
    ensures { result ≡ is_failing (steps_of messages.now) group.now id.now }
{
    let Some(n) = messages.find(id) else {
        return false;
    };
    let line = messages.line(n);
    if line.message.group() != *group {
        return true;
    }
    line.invalid
}

/// Whether a dependency of a message of this group is served.
pub(crate) fn is_served(messages: &Messages, group: &GroupId, id: &MessageId) -> bool
    requires { AreLines messages.now }
    ensures { result ≡ is_served (steps_of messages.now) group.now id.now }
{
    let Some(n) = messages.find(id) else {
        return false;
    };
    let line = messages.line(n);
    line.delivered && line.message.group() == *group
}

// Whether any of these makes a message of this group invalid.
fn fails(messages: &Messages, group: &GroupId, deps: &[MessageId]) -> bool
    requires { AreLines messages.now }
    ensures { result ≡ list_any (is_failing (steps_of messages.now) group.now) deps.now }
{
    deps.iter().any(|id| is_failing(messages, group, id))
}

// Whether each of these is served to a message of this group.
fn all_served(messages: &Messages, group: &GroupId, deps: &[MessageId]) -> bool
    requires { AreLines messages.now }
    ensures { result ≡ list_all (is_served (steps_of messages.now) group.now) deps.now }
{
    deps.iter().all(|id| is_served(messages, group, id))
}

// The step of an accepted message.
fn step_accepted(messages: &Messages, line: &Line, deps: &[MessageId]) -> Option<Entry>
    requires { AreLines messages.now }
    ensures { result ≡ step_accepted (steps_of messages.now) (held_of line.now) deps.now }
{
    let group = line.message.group();
    if fails(messages, &group, deps) {
        return Some(Entry::Invalid(line.id));
    }
    if all_served(messages, &group, deps) {
        return Some(Entry::Deliver(line.id));
    }
    None
}

// The step of a message that is judged and has not ended.
#[tactic(auto, using(crate::proofs::Answered::step_refused, crate::proofs::Answered::step_by_deps))]
fn step_open(messages: &Messages, line: &Line) -> Option<Entry>
    requires { AreLines messages.now }
    ensures { result ≡ step_open (steps_of messages.now) (held_of line.now) line.now.answer }
{
    if line.answer.is_refused() {
        return Some(Entry::Invalid(line.id));
    }
    step_accepted(messages, line, line.answer.deps())
}

// The step of a message.
fn step_of(messages: &Messages, line: &Line) -> Option<Entry>
    requires { AreLines messages.now }
    ensures { result ≡ step_of_line (steps_of messages.now) line.now }
{
    if !line.judged {
        return Some(Entry::Judged(line.id));
    }
    if line.delivered || line.invalid {
        return None;
    }
    step_open(messages, line)
}

/// The step of the message of this number.
pub(crate) fn step_at(messages: &Messages, n: u32) -> Option<Entry>
    requires { AreLines messages.now }
    ensures { result ≡ step_at (steps_of messages.now) (slice_get messages.now.lines n) }
{
    step_of(messages, messages.get(n)?)
}

// The first step of the messages of these numbers.
fn first_step(messages: &Messages, numbers: &BTreeSet<u32>) -> Option<Entry>
    requires { AreLines messages.now }
    ensures { result ≡ first_at (steps_of messages.now) messages.now.lines numbers.now.keys }
{
    for n in numbers {
        if let Some(entry) = step_at(messages, *n) {
            return Some(entry);
        }
    }
    None
}

/// The next step. It is looked for among the messages that may have one.
pub(crate) fn next_step(facts: &PlainFacts) -> Option<Entry>
    requires { IsPlainSound facts.now }
    ensures { (clients : Meaning) → KnowsMeanings clients facts.now → result ≡ next clients
        (facts_of facts.now) }
{
    first_step(&facts.messages, facts.waiting.as_set())
}
