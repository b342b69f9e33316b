//! The next step of a journal.
ghost use Rattle.std.specs.Prelude.{◌≡◌, ◌+◌, ◌<◌, ◌≤◌, ◌↔◌, true, length, IsTrue, IfOk, IfSome, OnOk};
ghost use Rattle.std.specs.Prelude.{OnErr, Some};
ghost use Rattle.std.specs.Option.{option_map};
ghost use Rattle.sync_rules.specs.Allows.{is_deliver, is_invalid, is_judged, same_entry};
ghost use Rattle.sync_rules.specs.Facts.{after};
ghost use Rattle.sync_rules.specs.Left.{left_of};
ghost use Rattle.sync_rules.specs.Clients.{Meaning};
ghost use Rattle.sync_rules.specs.Steps.{next, IsSettled};
ghost use Rattle.journal_state.specs.Whole.{id_at, KnowsJudgements};
ghost use Rattle.message_graph.specs.Nodes.{step_number};
ghost use Rattle.journal_state.specs.Stepping.{entry_of, stepped};

use crate::state::State;
use message_graph::Step;
use same_bytes::same_bytes;
use std::alloc::{AllocError, Global};
use sync_ids::MessageId;
use sync_rules::{Clients, Entry, laws, same_entry};

/// Whether an entry says that the message of this id is judged.
fn is_judged(id: &MessageId, entry: &Entry) -> bool
    ensures { result ≡ is_judged id.now entry.now }
{
    match entry {
        Entry::Judged(other) => same_bytes(id.as_bytes(), other.as_bytes()),
        _ => false,
    }
}

/// Whether an entry says that it is invalid.
fn is_invalid(id: &MessageId, entry: &Entry) -> bool
    ensures { result ≡ is_invalid id.now entry.now }
{
    match entry {
        Entry::Invalid(other) => same_bytes(id.as_bytes(), other.as_bytes()),
        _ => false,
    }
}

/// Whether an entry says that it is delivered.
fn is_deliver(id: &MessageId, entry: &Entry) -> bool
    ensures { result ≡ is_deliver id.now entry.now }
{
    match entry {
        Entry::Deliver(other) => same_bytes(id.as_bytes(), other.as_bytes()),
        _ => false,
    }
}

/// Whether two entries are the same, as `same_entry` has it; ids of steps are compared by words.
fn is_step(found: &Entry, entry: &Entry) -> bool
    ensures { result ≡ same_entry found.now entry.now }
{
    match found {
        Entry::Judged(id) => is_judged(id, entry),
        Entry::Deliver(id) => is_deliver(id, entry),
        Entry::Invalid(id) => is_invalid(id, entry),
        _ => same_entry(found, entry),
    }
}

/// Whether an entry is the step that is open, as `same_entry` has it.
pub(crate) fn same_step(found: &Entry, entry: &Entry) -> bool
    ensures test { result ≡ same_entry found.now entry.now }
    ensures same { result ≡ true → found.now ≡ entry.now }
{
    is_step(found, entry)
}

impl State {
    /// The next step of the journal: that of the first held message, in order of arrival, that has
    /// one. `None` comes exactly where the journal is settled.
    pub fn next_step(&self) -> Option<Entry>
        ensures { (clients : Meaning) → KnowsJudgements clients self.now
            → result ≡ next clients self.now.facts }
    {
        let step = self.open_step()?;
        Some(self.entry_of(step))
    }

    /// The next step by the number of its message. `None` comes exactly where the journal is
    /// settled.
    pub(crate) fn open_step(&self) -> Option<Step>
        ensures next { (clients : Meaning) → KnowsJudgements clients self.now
            → option_map (entry_of (id_at self.now.facts.held)) result ≡ next clients
            self.now.facts }
        ensures within { IfSome result (λ s. step_number s < length self.now.facts.held) }
    {
        self.graph.next()
    }

    /// Makes the next step, and answers its entry; `None` comes exactly where the journal is
    /// settled. It fails only for want of memory, and then the facts and the answers are as before.
    pub fn step<C: Clients>(
        &mut self,
        alloc: Global,
        clients: &C,
    ) -> Result<Option<Entry>, AllocError>
        requires knows { KnowsJudgements (C.meaning clients.now) self.old }
        ensures step { IfOk result (λ e. e ≡ next (C.meaning clients.now) self.old.facts) }
        ensures facts { IfOk result (λ e. self.new.facts ≡ stepped self.old.facts e) }
        ensures left { IfOk result (λ e. IfSome e
            (λ _. left_of self.new.facts + 1 ≤ left_of self.old.facts)) }
        ensures knows { KnowsJudgements (C.meaning clients.now) self.new }
        ensures err { OnErr result ((self.new.facts ≡ self.old.facts)
            × (self.new.answers ≡ self.old.answers)) }
    {
        let Some(step) = self.open_step() else {
            return Ok(None);
        };
        let entry = self.entry_of(step);
        self.make(alloc, clients, step, &entry)?;
        Ok(Some(entry))
    }

    /// Makes the next step, which has this entry. It fails only for want of memory, and then the
    /// facts and the answers are as before.
    pub(crate) fn make<C: Clients>(
        &mut self,
        alloc: Global,
        clients: &C,
        step: Step,
        entry: &Entry,
    ) -> Result<(), AllocError>
        requires knows { KnowsJudgements (C.meaning clients.now) self.old }
        requires within { step_number step < length self.old.facts.held }
        requires entry { entry.now ≡ entry_of (id_at self.old.facts.held) step }
        requires next { next (C.meaning clients.now) self.old.facts ≡ Some entry.now }
        ensures facts { OnOk result (self.new.facts ≡ after self.old.facts entry.now) }
        ensures left { OnOk result (left_of self.new.facts + 1 ≤ left_of self.old.facts) }
        ensures knows { KnowsJudgements (C.meaning clients.now) self.new }
        ensures err { OnErr result ((self.new.facts ≡ self.old.facts)
            × (self.new.answers ≡ self.old.answers)) }
    {
        laws::left();
        match step {
            Step::Judge(n) => self.judge(alloc, clients, n)?,
            Step::Invalid(n) => self.refuse(n),
            Step::Deliver(n) => self.deliver(n)?,
        }
        self.note(entry);
        Ok(())
    }

    /// The entry of a step.
    pub(crate) fn entry_of(&self, step: Step) -> Entry
        requires { step_number step < length self.now.facts.held }
        ensures { result ≡ entry_of (id_at self.now.facts.held) step }
    {
        match step {
            Step::Judge(n) => Entry::Judged(self.id_at(n)),
            Step::Invalid(n) => Entry::Invalid(self.id_at(n)),
            Step::Deliver(n) => Entry::Deliver(self.id_at(n)),
        }
    }

    /// Whether the journal is settled.
    pub fn is_settled(&self) -> bool
        ensures { (clients : Meaning) → KnowsJudgements clients self.now
            → (IsTrue result ↔ IsSettled clients self.now.facts) }
    {
        self.graph.next().is_none()
    }
}
