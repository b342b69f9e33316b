//! How many messages are good, and how many are bad, by rounds over the held messages and what
//! their clients say of them.
ghost use Rattle.std.specs.Prelude.{◌≡◌, ◌+◌, ◌<◌, ◌≤◌, ◌&&◌, ◌||◌, true, false, length, IfOk};
ghost use Rattle.std.specs.Prelude.{slice_get, slice_index_or, slice_set};
ghost use Rattle.std.specs.List.{list_all, list_any};
ghost use Rattle.sync_rules.specs.Facts.{held_at};
ghost use Rattle.sync_rules.specs.Rounds.{Graph};
ghost use Rattle.sync_rules.specs.Steps.{is_beside, is_elsewhere};
ghost use Rattle.journal_audit.specs.Lines.{AreLines, held_in};
ghost use Rattle.journal_audit.specs.Rounding.{AreMarked, AreStable, is_bad_by, is_good_by};
ghost use Rattle.journal_audit.specs.Rounding.{is_marked, is_next, is_next_at, IsGraphOfLines};
ghost use Rattle.journal_audit.specs.Rounding.{round_count};

use crate::answer::Answer;
use crate::messages::{Line, Messages};
use std::alloc::{AllocError, Global};
use sync_ids::{GroupId, MessageId};

// ---- one message

// A dependency is held in the same group, and marked.
fn is_good_dep(messages: &Messages, marks: &[bool], group: &GroupId, id: &MessageId) -> bool
    requires { length marks.now ≡ length messages.now.lines }
    ensures { result ≡ (is_beside group.now (held_at (held_in messages.now.lines) id.now)
        && is_marked (held_in messages.now.lines) marks.now id.now) }
{
    let Some(n) = messages.find(id) else {
        return false;
    };
    messages.line(n).message.group() == *group && marks[n as usize]
}

// A dependency is held in another group, or marked.
fn is_bad_dep(messages: &Messages, marks: &[bool], group: &GroupId, id: &MessageId) -> bool
    requires { length marks.now ≡ length messages.now.lines }
    ensures { result ≡ (is_elsewhere group.now (held_at (held_in messages.now.lines) id.now)
        || is_marked (held_in messages.now.lines) marks.now id.now) }
{
    let Some(n) = messages.find(id) else {
        return false;
    };
    messages.line(n).message.group() != *group || marks[n as usize]
}

// Each of these is held in the same group, and marked.
fn all_good(messages: &Messages, marks: &[bool], group: &GroupId, deps: &[MessageId]) -> bool
    requires { length marks.now ≡ length messages.now.lines }
    ensures { result ≡ list_all (λ d. is_beside group.now (held_at (held_in messages.now.lines) d)
        && is_marked (held_in messages.now.lines) marks.now d) deps.now }
{
    deps.iter()
        .all(|id| is_good_dep(messages, marks, group, id))
}

// One of these is held in another group, or marked.
fn any_bad(messages: &Messages, marks: &[bool], group: &GroupId, deps: &[MessageId]) -> bool
    requires { length marks.now ≡ length messages.now.lines }
    ensures { result ≡ list_any (λ d. is_elsewhere group.now
        (held_at (held_in messages.now.lines) d) || is_marked (held_in messages.now.lines)
        marks.now d) deps.now }
{
    deps.iter().any(|id| is_bad_dep(messages, marks, group, id))
}

// Whether a message of this group is good by those that are marked.
#[tactic(auto, using(crate::proofs::Answered::good_parts))]
fn is_good_by(messages: &Messages, marks: &[bool], group: &GroupId, answer: &Answer) -> bool
    requires { length marks.now ≡ length messages.now.lines }
    ensures { result ≡ is_good_by (held_in messages.now.lines) marks.now group.now answer.now }
{
    !answer.is_refused() && all_good(messages, marks, group, answer.deps())
}

// Whether it is bad by them.
#[tactic(auto, using(crate::proofs::Answered::bad_parts))]
fn is_bad_by(messages: &Messages, marks: &[bool], group: &GroupId, answer: &Answer) -> bool
    requires { length marks.now ≡ length messages.now.lines }
    ensures { result ≡ is_bad_by (held_in messages.now.lines) marks.now group.now answer.now }
{
    answer.is_refused() || any_bad(messages, marks, group, answer.deps())
}

// The one or the other.
fn is_next(messages: &Messages, of_good: bool, marks: &[bool], line: &Line) -> bool
    requires { length marks.now ≡ length messages.now.lines }
    ensures { result ≡ is_next of_good (held_in messages.now.lines) marks.now line.now }
{
    let group = line.message.group();
    if of_good {
        is_good_by(messages, marks, &group, &line.answer)
    } else {
        is_bad_by(messages, marks, &group, &line.answer)
    }
}

// Marks the message of this number where it is one more, and answers whether it is.
fn mark_one(messages: &Messages, of_good: bool, marks: &mut [bool], n: u32) -> bool
    requires within { n < length messages.now.lines }
    requires long { length marks.old ≡ length messages.now.lines }
    ensures marked { result ≡ true → (marks.new ≡ slice_set marks.old n true)
        × (slice_index_or marks.old n false ≡ false)
        × (is_next_at of_good messages.now.lines marks.old
        (slice_get messages.now.lines n) ≡ true) }
    ensures stays { result ≡ false → (marks.new ≡ marks.old)
        × (is_next_at of_good messages.now.lines marks.old (slice_get messages.now.lines n) ≡ true
        → slice_index_or marks.old n false ≡ true) }
{
    if marks[n as usize] || !is_next(messages, of_good, &*marks, messages.line(n)) {
        return false;
    }
    marks[n as usize] = true;
    true
}

// ---- rounds

// Marks further messages, each by those marked before it, and answers how many there are now.
fn mark_more(messages: &Messages, of_good: bool, marks: &mut [bool], count: u32) -> u32
    requires lines { AreLines messages.now }
    requires marked { AreMarked of_good messages.now.lines marks.old count }
    ensures more { count ≤ result }
    ensures marked { AreMarked of_good messages.now.lines marks.new result }
    ensures stable { result ≡ count → AreStable of_good messages.now.lines marks.new }
{
    let mut now = count;
    for n in 0..messages.len() {
        if mark_one(messages, of_good, marks, n) {
            now += 1;
        }
    }
    now
}

// Marks the message of this number where it is one more, behind so many, and answers how many there
// are now.
fn mark_next(messages: &Messages, of_good: bool, marks: &mut [bool], count: u32, n: u32) -> u32
    requires { AreMarked of_good messages.now.lines marks.old count }
    ensures { AreMarked of_good messages.now.lines marks.new result }
{
    if n < messages.len() && mark_one(messages, of_good, marks, n) {
        return count + 1;
    }
    count
}

// Marks those of these messages that are next, in this order, and answers how many there are.
fn mark_listed(messages: &Messages, of_good: bool, marks: &mut [bool], order: &[u32]) -> u32
    requires { AreMarked of_good messages.now.lines marks.old 0 }
    ensures { AreMarked of_good messages.now.lines marks.new result }
{
    let mut count = 0;
    for n in order {
        count = mark_next(messages, of_good, marks, count, *n);
    }
    count
}

// Marks messages, first in this order, until no further one is to be marked, and answers how many
// there are.
fn mark_all(messages: &Messages, of_good: bool, marks: &mut [bool], order: &[u32]) -> u32
    requires lines { AreLines messages.now }
    requires marked { AreMarked of_good messages.now.lines marks.old 0 }
    ensures marked { AreMarked of_good messages.now.lines marks.new result }
    ensures stable { AreStable of_good messages.now.lines marks.new }
{
    let mut count = mark_listed(messages, of_good, marks, order);
    'rounds: loop {
        let now = mark_more(messages, of_good, marks, count);
        if now == count {
            return now;
        }
        count = now;
    }
}

/// How many messages are good, or else how many are bad. They are counted in one round where each of
/// them stands in this order behind those by which it is so. It fails only for want of memory.
pub(crate) fn round_count(
    alloc: Global,
    messages: &Messages,
    of_good: bool,
    order: &[u32],
) -> Result<u32, AllocError>
    requires { AreLines messages.now }
    ensures { IfOk result (λ n. (g : Graph) → IsGraphOfLines g messages.now.lines
        → n ≡ round_count of_good g (held_in messages.now.lines)) }
{
    let mut marks = Vec::new(alloc);
    marks.resize(messages.len() as usize, false)?;
    Ok(mark_all(messages, of_good, marks.as_mut_slice(), order))
}
