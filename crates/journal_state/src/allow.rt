//! Whether a batch may follow a journal, and what is due on a session.
ghost use Rattle.std.specs.Prelude.{◌≡◌, ◌∷◌, [], false, IfOk, IfSome};
ghost use Rattle.sync_rules.specs.Facts.{session_at};
ghost use Rattle.sync_rules.specs.Clients.{Meaning};
ghost use Rattle.sync_rules.specs.Allows.{allows, is_account_kind, is_settling_kind};
ghost use Rattle.sync_rules.specs.Allows.{is_rows_kind};
ghost use Rattle.sync_rules.specs.Legal.{Allowed};
ghost use Rattle.sync_rules.specs.Steps.{IsSettled};
ghost use Rattle.sync_rules.specs.declared.entries.Entry.TheVariants as entry;
ghost use Rattle.session_core.specs.Known.{IsOfAll};
ghost use Rattle.journal_state.specs.Allowing.{due_of};
ghost use Rattle.journal_state.specs.Whole.{KnowsJudgements};

use crate::state::State;
use batch_tests::{JournalView, allows};
use session_core::due;
use std::alloc::{AllocError, Global};
use sync_ids::{GroupDef, GroupId, MessageId};
use sync_rules::{Batch, Clients, Out, Session, Start};

impl JournalView for State {
    fn start(&self) -> Start {
        self.start
    }

    fn contacts(&self) -> u32 {
        self.table.contacts()
    }

    fn groups(&self) -> u32 {
        self.table.groups()
    }

    fn knows_group(&self, id: &GroupId) -> bool {
        self.table.group(id).is_some()
    }

    #[tactic(auto, using(crate::proofs::Defined::defined))]
    fn def(&self, id: &GroupId) -> Option<&GroupDef> {
        let number = self.table.group(id)?;
        Some(self.table.def(number))
    }

    fn begun(&self) -> u32 {
        self.sessions.begun()
    }

    fn session_of(&self, number: u32) -> Option<Session> {
        self.session(number)
    }

    fn takes_on(&self, session: u32) -> u64 {
        self.sessions.takes(session)
    }

    fn serves(&self, group: &GroupId, id: &MessageId) -> bool {
        self.is_served(group, id)
    }
}

impl State {
    /// The session of this number. `None` comes exactly where there is none.
    #[tactic(auto, using(crate::proofs::Allowed::session_number))]
    pub fn session(&self, number: u32) -> Option<Session>
        ensures value { result ≡ session_at self.now.facts.sessions number }
        ensures numbered { IfSome result (λ s. s.number ≡ number) }
    {
        self.sessions.find(number)
    }

    /// What is due on the session of this number at this time, in milliseconds, by the judgements
    /// of the clients: what a settled journal may be extended by. `None` comes exactly where
    /// nothing is due, also where there is no session. It fails only for want of memory.
    pub fn due_on(&self, alloc: Global, session: u32, now: u64) -> Result<Option<Out>, AllocError>
        ensures due { (clients : Meaning) → KnowsJudgements clients self.now
            → IfOk result (λ what. what ≡ due_of clients self.now.facts
            (session_at self.now.facts.sessions session) now) }
        ensures allowed { (clients : Meaning) → KnowsJudgements clients self.now
            → IsSettled clients self.now.facts → IfOk result (λ what. IfSome what
            (λ w. Allowed clients self.now.facts (entry.Out session now w ∷ []))) }
    {
        match self.sessions.find(session) {
            None => Ok(None),
            Some(session) => due(alloc, self, &session, now),
        }
    }

    /// Whether a batch may follow the journal that neither begins with a step nor is of a brief
    /// account's own kinds. It fails only for want of memory.
    #[tactic(auto, using(session_core::proofs::Unknown::unknown))]
    pub fn allows<C: Clients>(
        &self,
        alloc: Global,
        clients: &C,
        batch: &Batch,
    ) -> Result<bool, AllocError>
        requires knows { KnowsJudgements (C.meaning clients.now) self.now }
        requires kind { is_settling_kind batch.now ≡ false }
        requires plain { is_account_kind batch.now ≡ false }
        ensures { IfOk result (λ yes. yes ≡ allows (C.meaning clients.now) self.now.facts
            batch.now) }
    {
        self.allows_known(alloc, clients, batch, None)
    }

    /// The same of a batch with the id of the one message that it brings, where the caller has it:
    /// it is not computed anew.
    #[tactic(auto, using(crate::proofs::Plain::no_rows))]
    pub fn allows_known<C: Clients>(
        &self,
        alloc: Global,
        clients: &C,
        batch: &Batch,
        id: Option<MessageId>,
    ) -> Result<bool, AllocError>
        requires knows { KnowsJudgements (C.meaning clients.now) self.now }
        requires kind { is_settling_kind batch.now ≡ false }
        requires plain { is_account_kind batch.now ≡ false }
        requires named { IsOfAll id batch.now }
        ensures { IfOk result (λ yes. yes ≡ allows (C.meaning clients.now) self.now.facts
            batch.now) }
    {
        self.allows_batch(alloc, clients, batch, id)
    }

    /// The same also of a batch that begins a brief account or keeps a message.
    pub(crate) fn allows_batch<C: Clients>(
        &self,
        alloc: Global,
        clients: &C,
        batch: &Batch,
        id: Option<MessageId>,
    ) -> Result<bool, AllocError>
        requires knows { KnowsJudgements (C.meaning clients.now) self.now }
        requires kind { is_settling_kind batch.now ≡ false }
        requires plain { is_rows_kind batch.now ≡ false }
        requires named { IsOfAll id batch.now }
        ensures { IfOk result (λ yes. yes ≡ allows (C.meaning clients.now) self.now.facts
            batch.now) }
    {
        let settled = self.is_settled();
        allows(alloc, self, clients, settled, batch, id)
    }
}
