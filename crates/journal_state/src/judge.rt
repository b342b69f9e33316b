//! A held message is judged, or is invalid.
ghost use Rattle.std.specs.Prelude.{◌≡◌, ◌<◌, Some, length, slice_get, IfOk, OnOk, OnErr};
ghost use Rattle.sync_rules.specs.Facts.{group_at};
ghost use Rattle.sync_rules.specs.Clients.{Meaning};
ghost use Rattle.sync_rules.specs.Sessions.{may_share};
ghost use Rattle.sync_rules.specs.Steps.{next, verdict_in};
ghost use Rattle.journal_state.specs.Parts.{answer_of_node};
ghost use Rattle.journal_state.specs.Taking.{moved};
ghost use Rattle.journal_state.specs.Whole.{id_at, KnowsJudgements};

use crate::state::State;
use message_graph::{Judged, Names, Step};
use std::alloc::{AllocError, Global};
use sync_ids::{Message, MessageId};
use sync_rules::{Clients, Entry, Judgement};
use visibility_table::Levels;

/// What its client says of a message, whose group has this number; Refuse where its client is not
/// known. It fails only for want of memory.
fn judgement_of<C: Clients>(
    alloc: Global,
    clients: &C,
    table: &Levels,
    number: u32,
    message: &Message,
) -> Result<Judgement, AllocError>
    requires known { number < length table.now.groups }
    requires named { slice_get table.now.groups number ≡ group_at table.now.groups
        message.now.group }
    ensures { IfOk result (λ j. j ≡ verdict_in (C.meaning clients.now) table.now.groups
        message.now) }
{
    let def = table.def(number);
    match clients.kind_of(def.name(), def.major()) {
        Some(kind) => clients.judge(alloc, kind, message),
        None => Ok(Judgement::Refuse),
    }
}

/// The names by which the graph knows messages of these ids.
fn graph_names(alloc: Global, ids: &[MessageId]) -> Result<Vec<[u8; 32]>, AllocError>
    ensures { IfOk result (λ names. names.items ≡ ids.now) }
{
    let mut names = Vec::new(alloc);
    for id in ids {
        names.push(id.0)?;
    }
    Ok(names)
}

/// A judgement as the graph takes it, and whether the message may be sent on.
fn graph_answer(alloc: Global, judgement: &Judgement) -> Result<(Judged, bool), AllocError>
    ensures answer { IfOk result (λ answer. answer_of_node (Some answer.0) answer.1 ≡ Some
        judgement.now) }
    ensures share { IfOk result (λ answer. answer.1 ≡ may_share (Some judgement.now)) }
{
    match judgement {
        Judgement::Refuse => Ok((Judged::Refused, false)),
        Judgement::Accept { deps, share } => {
            let names = graph_names(alloc, deps.as_slice())?;
            Ok((Judged::Accepted(Names::new(names)), *share))
        }
    }
}

impl State {
    /// Judges the message of this number, which is the next step; how the journal began is not noted.
    /// After an error all is as before.
    pub(crate) fn judge<C: Clients>(
        &mut self,
        alloc: Global,
        clients: &C,
        n: u32,
    ) -> Result<(), AllocError>
        requires knows { KnowsJudgements (C.meaning clients.now) self.old }
        requires held { n < length self.old.facts.held }
        requires next { next (C.meaning clients.now) self.old.facts ≡ Some
            (Entry.Judged (id_at self.old.facts.held n)) }
        ensures facts { OnOk result
            (self.new.facts ≡ moved self.old.facts (Entry.Judged (id_at self.old.facts.held n))) }
        ensures knows { KnowsJudgements (C.meaning clients.now) self.new }
        ensures err { OnErr result ((self.new.facts ≡ self.old.facts)
            × (self.new.answers ≡ self.old.answers)) }
    {
        let number = self.graph.group(n);
        let message = self.messages.message(n);
        let judgement = judgement_of(alloc, clients, &self.table, number, message)?;
        let (answer, share) = graph_answer(alloc, &judgement)?;
        self.graph.judged(n, answer)?;
        self.shares[n as usize] = share;
        Ok(())
    }

    /// Ends the message of this number as invalid, which is the next step; how the journal began is not
    /// noted. It takes no memory.
    pub(crate) fn refuse(&mut self, n: u32)
        requires held { n < length self.old.facts.held }
        requires next { (clients : Meaning)
            × (KnowsJudgements clients self.old
            × (next clients self.old.facts ≡ Some (Entry.Invalid (id_at self.old.facts.held n)))) }
        ensures facts { self.new.facts ≡ moved self.old.facts
            (Entry.Invalid (id_at self.old.facts.held n)) }
        ensures knows { (clients : Meaning) → KnowsJudgements clients self.old → KnowsJudgements clients self.new }
    {
        self.graph.apply(Step::Invalid(n));
    }
}
