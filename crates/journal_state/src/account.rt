//! What a brief account of the journal tells, beside what the facts say: between which messages
//! which steps stand. They are made anew over a state that has the groups alone. With it what is
//! kept for each contact, and a state without its sessions.
ghost use Rattle.std.specs.Prelude.{◌≡◌, ◌+◌, ◌<◌, ◌≤◌, length, IfOk, IfSome, OnOk, Some, slice_get};
ghost use Rattle.std.specs.Option.{option_map};
ghost use Rattle.sync_ids.specs.Ids.{message_id_of};
ghost use Rattle.sync_rules.specs.Clients.{Meaning};
ghost use Rattle.sync_rules.specs.Facts.{after, row_at};
ghost use Rattle.sync_rules.specs.Steps.{next};
ghost use Rattle.brief_account.specs.Account.{told_of, with_groups};
ghost use Rattle.brief_account.specs.Brief.{without_sessions};
ghost use Rattle.retry_table.specs.Table.{tried_of};
ghost use Rattle.journal_state.specs.Taking.{CanHold};
ghost use Rattle.journal_state.specs.Telling.{told_entries, told_entry, told_number, told_step};
ghost use Rattle.journal_state.specs.Telling.{TellsSteps, TellsTo, TellsWithin};
ghost use Rattle.journal_state.specs.Whole.{KnowsJudgements};

use crate::state::State;
use message_graph::Step;
use std::alloc::{AllocError, Global};
use sync_ids::{Message, MessageId};
use sync_rules::{Clients, Entry, Origin, Start, Tried};

/// What a brief account tells of a held message, by its arrival number: that it is kept, or a step.
#[derive(Clone, Copy, Debug)]
pub enum Told {
    /// The message is kept.
    Kept(u32),
    /// The message is judged.
    Judged(u32),
    /// The message is delivered.
    Deliver(u32),
    /// The message is invalid.
    Invalid(u32),
}

/// A step as it is told.
fn told_step(step: Step) -> Told
    ensures { result ≡ told_step step }
{
    match step {
        Step::Judge(n) => Told::Judged(n),
        Step::Invalid(n) => Told::Invalid(n),
        Step::Deliver(n) => Told::Deliver(n),
    }
}

impl State {
    /// What a brief account tells of the held messages: each in order of arrival, and behind it the
    /// steps that are open once those before are made. The clients judge each message anew. It fails
    /// only for want of memory.
    pub fn account<C: Clients>(&self, alloc: Global, clients: &C) -> Result<Vec<Told>, AllocError>
        ensures told { IfOk result (λ told. told_entries self.now.facts.held told.items
            ≡ told_of (C.meaning clients.now) self.now.facts) }
        ensures within { IfOk result
            (λ told. TellsWithin (length self.now.facts.held) told.items) }
    {
        let mut fresh = self.groups_alone(alloc)?;
        let mut told = Vec::new(alloc);
        for n in 0..self.held() {
            fresh.tell(alloc, clients, self, n, &mut told)?;
        }
        Ok(told)
    }

    /// A state that has the groups of this one and nothing else.
    fn groups_alone(&self, alloc: Global) -> Result<State, AllocError>
        ensures facts { IfOk result (λ s. s.facts ≡ with_groups self.now.facts.groups) }
        ensures knows { IfOk result (λ s. (clients : Meaning) → KnowsJudgements clients s) }
    {
        let table = self.table.groups_alone(alloc)?;
        State::over(alloc, self.graph.hasher(), table)
    }

    /// The held message of this number of another state is kept, and told with the steps that are
    /// then open, where those before it are told.
    fn tell<C: Clients>(
        &mut self,
        alloc: Global,
        clients: &C,
        other: &State,
        n: u32,
        told: &mut Vec<Told>,
    ) -> Result<(), AllocError>
        requires knows { KnowsJudgements (C.meaning clients.now) self.old }
        requires within { n < length other.now.facts.held }
        requires told { TellsTo (C.meaning clients.now) other.now.facts self.old.facts n
            told.old.items }
        ensures told { OnOk result (TellsTo (C.meaning clients.now) other.now.facts self.new.facts
            (n + 1) told.new.items) }
        ensures knows { KnowsJudgements (C.meaning clients.now) self.new }
    {
        other.show_sound();
        self.keep_copy(alloc, other.id_at(n), other.message(n), other.origin(n))?;
        told.push(Told::Kept(n))?;
        self.tell_steps(alloc, clients, told)
    }

    /// Keeps a copy of a message under its id, where its group is known and the id is new. It fails
    /// only for want of memory.
    fn keep_copy(
        &mut self,
        alloc: Global,
        id: MessageId,
        message: &Message,
        from: Origin,
    ) -> Result<(), AllocError>
        requires named { id ≡ message_id_of message.now }
        requires can { CanHold self.old.facts message.now }
        ensures facts { OnOk result
            (self.new.facts ≡ after self.old.facts (Entry.Kept from message.now)) }
        ensures knows { (clients : Meaning) → KnowsJudgements clients self.old → KnowsJudgements clients self.new }
    {
        let copy = message.copy(alloc)?;
        self.reserve_entries(1)?;
        self.take_entry(&Some(id), Entry::Kept(from, copy));
        Ok(())
    }

    /// Makes all steps that are open, one after the other, and tells them. It fails only for want of
    /// memory.
    fn tell_steps<C: Clients>(
        &mut self,
        alloc: Global,
        clients: &C,
        told: &mut Vec<Told>,
    ) -> Result<(), AllocError>
        requires { KnowsJudgements (C.meaning clients.now) self.old }
        ensures steps { OnOk result (TellsSteps (C.meaning clients.now) self.old.facts
            self.new.facts told.old.items told.new.items) }
        ensures knows { KnowsJudgements (C.meaning clients.now) self.new }
    {
        'steps: while let Some(step) = self.next_told() {
            self.step(alloc, clients)?;
            told.push(step)?;
        }
        Ok(())
    }

    /// What is told of the next step. `None` comes exactly where the journal is settled.
    fn next_told(&self) -> Option<Told>
        ensures step { (clients : Meaning) → KnowsJudgements clients self.now
            → option_map (told_entry self.now.facts.held) result ≡ next clients self.now.facts }
        ensures within { IfSome result (λ t. told_number t < length self.now.facts.held) }
    {
        let step = self.graph.next()?;
        Some(told_step(step))
    }

    /// What is kept of the held message of this arrival number for a contact, as a brief account
    /// states it; the number is below the number of held messages.
    pub fn tried(&self, contact: u8, n: u32) -> Tried
        requires { n < length self.now.facts.held }
        ensures row { option_map
            (λ h. tried_of contact h.id (row_at self.now.facts.rows contact h.id))
            (slice_get self.now.facts.held n) ≡ Some result }
        ensures few { result.tries ≤ 64 }
        ensures wait { result.tries ≡ 0 → result.expiry ≡ 0 }
    {
        self.retry.tried(contact, n, self.id_at(n))
    }

    /// Forgets the sessions, but how many have begun: the state is then that of a brief account of
    /// its journal. It takes no memory.
    pub fn forget(&mut self)
        ensures facts { self.new.facts ≡ without_sessions self.old.facts }
        ensures answers { self.new.answers ≡ self.old.answers }
        ensures knows { (clients : Meaning) → KnowsJudgements clients self.old → KnowsJudgements clients self.new }
    {
        self.start = Start::Opening;
        self.sessions.forget();
    }
}
