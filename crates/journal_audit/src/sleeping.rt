//! Who goes to sleep, and who wakes. A message that has no step sleeps under each of its dependencies.
//! What becomes of a dependency is looked at once for each message that sleeps under it, and the
//! dependencies of a message are looked through for one that is not served from where they were left.
ghost use Rattle.std.specs.Prelude.{◌≡◌, ℕ, List, true, false, IfSome, OnOk, slice_get};
ghost use Rattle.std.specs.List.{list_all};
ghost use Rattle.sync_rules.specs.Steps.{is_served};
ghost use Rattle.journal_audit.specs.Lines.{AreLines};
ghost use Rattle.journal_audit.specs.Sleeping.{AreWoken, deps_in, IsWoken, LaysDown, SleepOn, SleepsUnder};
ghost use Rattle.journal_audit.specs.Sleeping.{sleeps_on, steps_of};

use crate::hints::Hints;
use crate::messages::Messages;
use crate::numbers::Numbers;
use crate::settling::{is_failing, is_served, step_at};
use crate::sleepers::Sleepers;
use std::alloc::{AllocError, Global};
use sync_ids::{GroupId, MessageId};

// The first of these dependencies, from this place on, that is not served to a message of this group.
fn unserved(messages: &Messages, group: &GroupId, deps: &[MessageId], from: usize) -> Option<usize>
    requires { AreLines messages.now }
    ensures { IfSome result (λ k. list_all (is_served (steps_of messages.now) group.now) deps.now
        ≡ false) }
{
    for k in from..deps.len() {
        if !is_served(messages, group, &deps[k]) {
            return Some(k);
        }
    }
    None
}

// Whether a message sleeps on behind what became of this dependency. It may be answered no for one
// that does.
fn sleeps_on(messages: &Messages, hints: &mut Hints, id: &MessageId, n: u32) -> bool
    requires { AreLines messages.now }
    ensures { result ≡ true → sleeps_on messages.now id.now (slice_get messages.now.lines n)
        ≡ true }
{
    let Some(line) = messages.get(n) else {
        return true;
    };
    if line.delivered || line.invalid {
        return true;
    }
    let group = line.message.group();
    if is_failing(messages, &group, id) {
        return false;
    }
    match unserved(messages, &group, line.answer.deps(), hints.of(n)) {
        Some(k) => {
            hints.set(n, k);
            true
        }
        None => false,
    }
}

// Wakes a message, unless it sleeps on behind what became of an id.
fn wake_one(
    messages: &Messages,
    hints: &mut Hints,
    waiting: &mut Numbers,
    id: &MessageId,
    n: u32,
) -> Result<(), AllocError>
    requires { AreLines messages.now }
    ensures { OnOk result (IsWoken messages.now id.now n waiting.old waiting.new) }
{
    if !sleeps_on(messages, hints, id, n) {
        waiting.add(n)?;
    }
    Ok(())
}

/// Wakes those of these messages that do not sleep on behind what became of an id.
pub(crate) fn wake(
    messages: &Messages,
    sleepers: &[u32],
    hints: &mut Hints,
    waiting: &mut Numbers,
    id: &MessageId,
) -> Result<(), AllocError>
    requires { AreLines messages.now }
    ensures { OnOk result (AreWoken messages.now id.now sleepers.now waiting.old waiting.new) }
{
    for n in sleepers {
        wake_one(messages, hints, waiting, id, *n)?;
    }
    Ok(())
}

// A message comes to sleep under these ids.
fn add_under(
    alloc: Global,
    sleepers: &mut Sleepers,
    ids: &[MessageId],
    n: u32,
) -> Result<(), AllocError>
    ensures under { OnOk result (SleepsUnder sleepers.new n ids.now) }
    ensures rest { OnOk result (SleepOn sleepers.old sleepers.new) }
{
    for id in ids {
        sleepers.add(alloc, *id, n)?;
    }
    Ok(())
}

/// Lays a message down that has no step, whatever it waited for.
pub(crate) fn lay_down(
    alloc: Global,
    messages: &Messages,
    sleepers: &mut Sleepers,
    waiting: &mut Numbers,
    n: u32,
) -> Result<(), AllocError>
    requires { AreLines messages.now }
    ensures { OnOk result (LaysDown messages.now waiting.old waiting.new sleepers.old
        sleepers.new) }
{
    if step_at(messages, n).is_some() {
        return Ok(());
    }
    let Some(line) = messages.get(n) else {
        return Ok(());
    };
    add_under(alloc, sleepers, line.answer.deps(), n)?;
    waiting.remove(n);
    Ok(())
}
