//! What a session may ask of a store, and how the messages that it holds are named.
use crate::formats::HeldNames;
use crate::store::Store;
use entry_codec::Names;
use std::alloc::{AllocError, Global};
use sync_ids::{GroupId, MessageId};
use sync_rules::{Level, Mode, View};

impl View for Store {
    ghost use Rattle.journal_state.specs.Whole.{shared_of};

    ghost seen = { λ s. record { facts = s.state.facts; shared = shared_of s.state } };

    fn level(&self, contact: u8, group: &GroupId) -> Level {
        self.state.level(contact, group)
    }

    fn find(&self, id: &MessageId) -> Option<u32> {
        self.state.find(id)
    }

    fn group_at(&self, n: u32) -> GroupId {
        self.state.group_at(n)
    }

    fn is_wanted(&self, contact: u8, id: &MessageId) -> bool {
        self.state.is_wanted(contact, id)
    }

    fn wanted_count(&self, contact: u8) -> u32 {
        self.state.wanted_count(contact)
    }

    fn is_seen(&self, contact: u8, n: u32) -> bool {
        self.state.is_seen(contact, n)
    }

    fn owed(&self, alloc: Global, contact: u8) -> Result<Vec<MessageId>, AllocError> {
        self.state.owed(alloc, contact)
    }

    fn wanted(&self, alloc: Global, contact: u8) -> Result<Vec<MessageId>, AllocError> {
        self.state.wanted(alloc, contact)
    }

    fn next_send(&self, contact: u8, mode: Mode, now: u64) -> Option<MessageId> {
        self.state.next_send(contact, mode, now)
    }

    fn offers(&self, alloc: Global, contact: u8, now: u64) -> Result<Vec<MessageId>, AllocError> {
        self.state.offers(alloc, contact, now)
    }

    fn next_sooner(&self, contact: u8, latency: u32, now: u64) -> Option<MessageId> {
        self.state.next_sooner(contact, latency, now)
    }

    fn sooner_offers(
        &self,
        alloc: Global,
        contact: u8,
        latency: u32,
        now: u64,
    ) -> Result<Vec<MessageId>, AllocError> {
        self.state.sooner_offers(alloc, contact, latency, now)
    }
}

// The messages that it holds, each named by its arrival number.
impl Names for Store {
    ghost use Rattle.entry_codec.specs.Payloads.{names_of};

    ghost named = { λ s. names_of s.state.facts };

    fn number(&self, id: &MessageId) -> Option<u32> {
        HeldNames { state: &self.state }.number(id)
    }

    fn name(&self, n: u32) -> Option<MessageId> {
        HeldNames { state: &self.state }.name(n)
    }

    fn show_names(&self) {
        HeldNames { state: &self.state }.show_names();
    }
}
