//! What the test of a batch sees of the facts.
ghost use Rattle.std.specs.Prelude.{◌≡◌};
ghost use Rattle.journal_audit.specs.Plain.{IsPlainSound};

use crate::due::{
    first_sent, first_sent_of_all, first_sooner, numbers_for, offered_ids, offered_of_all,
    owed_ids, sooner_ids,
};
use crate::facts::PlainFacts;
use batch_tests::JournalView;
use std::alloc::{AllocError, Global};
use std::marker::Model;
use sync_ids::{GroupDef, GroupId, MAX_IDS, MessageId};
use sync_rules::{Level, Mode, Session, Start, View};

/// Facts as a session and the test of a batch see them. Contracts see the facts.
#[derive(Drop)]
pub(crate) struct FactsView<'a> {
    facts: &'a PlainFacts,
}

impl<'a> Model for FactsView<'a> {
    ghost use Rattle.journal_audit.specs.declared.facts.PlainFacts.{PlainFacts};
    ghost use Rattle.journal_audit.specs.Plain.{IsPlainSound};

    ghost Value = { PlainFacts };

    ghost use Rattle.journal_audit.specs.contracts.facts.PlainFacts as plain_facts;

    ghost coded = { plain_facts.the_row.coded };

    ghost view = { λ v. v.facts.now };

    ghost invariant = { λ v. IsPlainSound v.facts.now };
}

impl<'a> FactsView<'a> {
    /// A view of these facts.
    pub(crate) fn over(facts: &'a PlainFacts) -> FactsView<'a>
        requires { IsPlainSound facts.now }
        ensures { result ≡ facts.now }
    {
        FactsView { facts }
    }
}

impl<'a> View for FactsView<'a> {
    ghost use Rattle.journal_audit.specs.Looks.{seen_of};

    ghost seen = { λ v. seen_of v };

    fn level(&self, contact: u8, group: &GroupId) -> Level {
        self.facts.levels.level(contact, group)
    }

    fn find(&self, id: &MessageId) -> Option<u32> {
        self.facts.messages.find(id)
    }

    fn group_at(&self, n: u32) -> GroupId {
        self.facts.messages.line(n).message.group()
    }

    fn is_wanted(&self, contact: u8, id: &MessageId) -> bool {
        self.facts.wants.ids(contact).contains(id)
    }

    fn wanted_count(&self, contact: u8) -> u32 {
        self.facts.wants.ids(contact).len() as u32
    }

    fn is_seen(&self, contact: u8, n: u32) -> bool {
        let line = self.facts.messages.line(n);
        self.facts.rows.row(contact, &line.id).seen
    }

    fn owed(&self, alloc: Global, contact: u8) -> Result<Vec<MessageId>, AllocError> {
        let numbers = self.facts.owed.of(contact);
        owed_ids(alloc, self.facts, contact, numbers)
    }

    fn wanted(&self, alloc: Global, contact: u8) -> Result<Vec<MessageId>, AllocError> {
        let mut ids = Vec::new(alloc);
        ids.extend_from_slice(self.facts.wants.ids(contact))?;
        ids.truncate(MAX_IDS);
        Ok(ids)
    }

    fn next_send(&self, contact: u8, mode: Mode, now: u64) -> Option<MessageId> {
        if !self.facts.is_brought(contact, now) {
            return first_sent_of_all(self.facts, contact, mode, now);
        }
        let numbers = numbers_for(&self.facts.ready, contact, mode);
        first_sent(self.facts, contact, mode, now, numbers)
    }

    fn offers(&self, alloc: Global, contact: u8, now: u64) -> Result<Vec<MessageId>, AllocError> {
        if !self.facts.is_brought(contact, now) {
            return offered_of_all(alloc, self.facts, contact, now);
        }
        let numbers = self.facts.ready.awake.of(contact);
        offered_ids(alloc, self.facts, contact, now, numbers)
    }

    fn next_sooner(&self, contact: u8, latency: u32, now: u64) -> Option<MessageId> {
        let from = self.facts.early.start(contact, latency, now);
        first_sooner(self.facts, contact, latency, now, from)
    }

    fn sooner_offers(
        &self,
        alloc: Global,
        contact: u8,
        latency: u32,
        now: u64,
    ) -> Result<Vec<MessageId>, AllocError> {
        let from = self.facts.early.start(contact, latency, now);
        sooner_ids(alloc, self.facts, contact, latency, now, from)
    }
}

impl<'a> JournalView for FactsView<'a> {
    fn start(&self) -> Start {
        self.facts.start
    }

    fn contacts(&self) -> u32 {
        self.facts.contacts
    }

    fn groups(&self) -> u32 {
        self.facts.groups.len()
    }

    fn knows_group(&self, id: &GroupId) -> bool {
        self.facts.groups.knows(id)
    }

    fn def(&self, id: &GroupId) -> Option<&GroupDef> {
        self.facts.groups.def(id)
    }

    fn begun(&self) -> u32 {
        self.facts.sessions.begun()
    }

    fn session_of(&self, number: u32) -> Option<Session> {
        self.facts.sessions.find(number)
    }

    fn takes_on(&self, session: u32) -> u64 {
        self.facts.sessions.takes(session)
    }

    fn serves(&self, group: &GroupId, id: &MessageId) -> bool {
        let Some(n) = self.facts.messages.find(id) else {
            return false;
        };
        let line = self.facts.messages.line(n);
        line.delivered && line.message.group() == *group
    }
}
