//! What a session may ask of a state.
ghost use Rattle.std.specs.Prelude.{◌≡◌, map, IfOk};
ghost use Rattle.std.specs.List.{list_all};
ghost use Rattle.std.specs.Prelude.{true, length, nat_lt};
ghost use Rattle.journal_state.specs.Whole.{id_at};

use crate::state::State;
use std::alloc::{AllocError, Global};
use sync_ids::{GroupId, MessageId};
use sync_rules::{Level, Mode, View};

impl View for State {
    ghost use Rattle.journal_state.specs.Whole.{shared_of};

    ghost seen = { λ s. record { facts = s.facts; shared = shared_of s } };

    fn level(&self, contact: u8, group: &GroupId) -> Level {
        self.table.level(contact, group)
    }

    fn find(&self, id: &MessageId) -> Option<u32> {
        self.graph.number(&id.0)
    }

    fn group_at(&self, n: u32) -> GroupId {
        self.messages.message(n).group()
    }

    fn is_wanted(&self, contact: u8, id: &MessageId) -> bool {
        self.retry.is_wanted(contact, id)
    }

    fn wanted_count(&self, contact: u8) -> u32 {
        self.retry.wanted_count(contact)
    }

    fn is_seen(&self, contact: u8, n: u32) -> bool {
        self.retry.is_seen(contact, n)
    }

    fn owed(&self, alloc: Global, contact: u8) -> Result<Vec<MessageId>, AllocError> {
        let numbers = self.retry.owed(contact)?;
        self.ids(alloc, numbers.as_slice())
    }

    fn wanted(&self, _alloc: Global, contact: u8) -> Result<Vec<MessageId>, AllocError> {
        self.retry.wanted(contact)
    }

    fn next_send(&self, contact: u8, mode: Mode, now: u64) -> Option<MessageId> {
        let number = self.retry.due_message(contact, mode, now)?;
        Some(self.id_at(number))
    }

    fn offers(&self, alloc: Global, contact: u8, now: u64) -> Result<Vec<MessageId>, AllocError> {
        let numbers = self.retry.due_offers(contact, now)?;
        self.ids(alloc, numbers.as_slice())
    }

    fn next_sooner(&self, contact: u8, latency: u32, now: u64) -> Option<MessageId> {
        let number = self.retry.sooner_message(contact, latency, now)?;
        Some(self.id_at(number))
    }

    fn sooner_offers(
        &self,
        alloc: Global,
        contact: u8,
        latency: u32,
        now: u64,
    ) -> Result<Vec<MessageId>, AllocError> {
        let numbers = self.retry.sooner_offers(contact, latency, now)?;
        self.ids(alloc, numbers.as_slice())
    }
}

impl State {
    /// The ids of held messages.
    fn ids(&self, alloc: Global, numbers: &[u32]) -> Result<Vec<MessageId>, AllocError>
        requires { list_all (λ n. nat_lt n (length self.now.facts.held)) numbers.now ≡ true }
        ensures { IfOk result (λ ids. ids.items ≡ map (id_at self.now.facts.held) numbers.now) }
    {
        let mut ids = Vec::new(alloc);
        for number in numbers {
            ids.push(self.id_at(*number))?;
        }
        Ok(ids)
    }
}
