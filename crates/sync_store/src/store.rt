//! `Store`.
ghost use Rattle.std.specs.Prelude.{◌≡◌, ◌+◌, ◌<◌, ◌≤◌, ◌↔◌, ◌∷◌, [], IsTrue, length, Some};
ghost use Rattle.std.specs.Prelude.{slice_get, IfOk, IfSome};
ghost use Rattle.std.specs.Option.{option_map};
ghost use Rattle.entry_codec.specs.Standing.{room_of};
ghost use Rattle.outside.specs.declared.limits.TheConstants.{MAX_JOURNAL};
ghost use Rattle.journal_state.specs.Allowing.{due_of};
ghost use Rattle.journal_state.specs.Lent.{StandsForNodes, StandsForRows};
ghost use Rattle.journal_state.specs.Whole.{KnowsJudgements};
ghost use Rattle.sync_rules.specs.declared.limits.TheConstants.{MAX_CONTACTS};
ghost use Rattle.sync_rules.specs.Clients.{Meaning};
ghost use Rattle.sync_rules.specs.Facts.{Id, session_at, takes_of};
ghost use Rattle.sync_rules.specs.Legal.{Allowed};
ghost use Rattle.sync_rules.specs.Steps.{IsSettled, fate_held};
ghost use Rattle.sync_rules.specs.Views.{IsPlace};
ghost use Rattle.sync_rules.specs.declared.entries.Entry.TheVariants as entry;
ghost use Rattle.sync_store.specs.Store.{written_in};

use crate::formats::{format_meant, settling_room};
use crate::waiting::Waiting;
use frame_journal::Journal;
use journal_state::State;
use message_graph::Graph;
use retry_table::Retry;
use std::alloc::{AllocError, Global};
use std::marker::Model;
use sync_ids::{GroupDef, GroupId, Message, MessageId};
use sync_rules::{Fate, Origin, Out, Session};

/// A legal journal on a disk. Contracts see the facts of the journal and the judgements of its
/// messages, the number of its file and the place of its closed gate plus one, the frames that wait
/// to be added to the file, the length that commits may fill, and whether a call on the disk failed.
#[derive(Drop)]
pub struct Store {
    pub(crate) alloc: Global,
    pub(crate) state: State,
    pub(crate) journal: Journal,
    pub(crate) waiting: Waiting,
    pub(crate) limit: u64,
    pub(crate) closed: bool,
}

impl Model for Store {
    ghost use Rattle.sync_store.specs.Store.{StoreValue, store_code, IsStore};

    ghost Value = { StoreValue };

    ghost coded = { store_code };

    ghost use Rattle.sync_store.specs.Inside.{value_of};

    ghost view = { λ s. value_of s };

    ghost invariant = { λ s. IsStore (value_of s) };
}

impl Store {
    ghost use Rattle.sync_store.specs.Store.{IsStore};

    /// The state of the journal, lent: what is asked of a journal without a disk is asked there.
    pub fn state(&self) -> &State
        ensures { result.now ≡ self.now.state }
    {
        &self.state
    }

    /// The number of held messages.
    pub fn held(&self) -> u32
        ensures { result ≡ length self.now.state.facts.held }
    {
        self.state.held()
    }

    /// The number of contacts, at most `MAX_CONTACTS`.
    pub fn contacts(&self) -> u32
        ensures value { result ≡ self.now.state.facts.contacts }
        ensures few { result ≤ MAX_CONTACTS }
    {
        self.state.contacts()
    }

    /// The number of groups.
    pub fn groups(&self) -> u32
        ensures { result ≡ length self.now.state.facts.groups }
    {
        self.state.groups()
    }

    /// The number of sessions that have begun.
    pub fn sessions(&self) -> u32
        ensures { result ≡ self.now.state.facts.begun }
    {
        self.state.sessions()
    }

    /// The format of the journal, 1 or 2.
    pub fn format(&self) -> u8
        ensures { result ≡ self.now.format }
    {
        self.journal.format()
    }

    /// The generation of the journal: of two files with an open header the one with the greater
    /// counts.
    pub fn generation(&self) -> u64
        ensures { result ≡ self.now.generation }
    {
        self.journal.generation()
    }

    /// The place of the journal's closed gate plus one, in bytes, with the frames that wait. It
    /// bounds the counts of the journal, and is itself at most the greatest length.
    pub fn end(&self) -> u64
        ensures value { result ≡ self.now.end }
        ensures numbers { IsStore self.now }
    {
        self.journal.end() + (self.waiting.as_slice().len() - 1) as u64
    }

    /// The room in bytes that settling may yet need: 38 in format 1 and 10 in format 2 for each step
    /// that is left, two for each held message that is not judged, and one for each that is judged
    /// and neither delivered nor invalid. Behind the journal it is within the greatest length.
    pub fn room(&self) -> u64
        ensures room { result ≡ room_of (written_in self.now) self.now.state.facts }
        ensures within { self.now.end + result ≤ MAX_JOURNAL }
    {
        settling_room(format_meant(self.journal.format()), self.state.left())
    }

    /// Whether a call on the disk failed. The counts of a closed store are bounded too.
    pub fn is_closed(&self) -> bool
        ensures closed { result ≡ self.now.closed }
        ensures numbers { IsStore self.now }
    {
        self.closed
    }

    /// The number of delivered messages.
    pub fn delivered(&self) -> u32
        ensures { result ≡ length self.now.state.facts.delivered }
    {
        self.state.delivered()
    }

    /// The arrival number of the k-th delivered message, from 0, in the order of delivery.
    pub fn delivered_at(&self, k: u32) -> u32
        requires { k < length self.now.state.facts.delivered }
        ensures within { result < length self.now.state.facts.held }
        ensures place { (id : Id) → slice_get self.now.state.facts.delivered k ≡ Some id
            → IsPlace self.now.state.facts.held id result }
    {
        self.state.delivered_at(k)
    }

    /// The state of the held message of this arrival number, which is below the number of held
    /// messages.
    pub fn fate(&self, n: u32) -> Fate
        requires { n < length self.now.state.facts.held }
        ensures { option_map (λ h. fate_held self.now.state.facts h.id)
            (slice_get self.now.state.facts.held n) ≡ Some result }
    {
        self.state.fate(n)
    }

    /// The waiting graph: it stands for the journal of the store.
    pub fn graph(&self) -> &Graph
        ensures { StandsForNodes self.now.state result.now.nodes }
    {
        self.state.graph()
    }

    /// The definition of the group of this number, which is below the number of groups.
    pub fn group_def(&self, n: u32) -> &GroupDef
        requires { n < length self.now.state.facts.groups }
        ensures { option_map (λ g. g.def) (slice_get self.now.state.facts.groups n) ≡ Some
            result.now }
    {
        self.state.group_def(n)
    }

    /// The id of the group of this number, which is below the number of groups.
    pub fn group_id_at(&self, n: u32) -> GroupId
        requires { n < length self.now.state.facts.groups }
        ensures { option_map (λ g. g.id) (slice_get self.now.state.facts.groups n) ≡ Some result }
    {
        self.state.group_id_at(n)
    }

    /// The held message of this arrival number, which is below the number of held messages.
    pub fn message(&self, n: u32) -> &Message
        requires { n < length self.now.state.facts.held }
        ensures { option_map (λ h. h.message) (slice_get self.now.state.facts.held n) ≡ Some
            result.now }
    {
        self.state.message(n)
    }

    /// The id of the held message of this arrival number, which is below the number of held
    /// messages.
    pub fn id_at(&self, n: u32) -> MessageId
        requires { n < length self.now.state.facts.held }
        ensures { option_map (λ h. h.id) (slice_get self.now.state.facts.held n) ≡ Some result }
    {
        self.state.id_at(n)
    }

    /// Where the held message of this arrival number came from; the number is below the number of
    /// held messages.
    pub fn origin(&self, n: u32) -> Origin
        requires { n < length self.now.state.facts.held }
        ensures { option_map (λ h. h.origin) (slice_get self.now.state.facts.held n) ≡ Some result }
    {
        self.state.origin(n)
    }

    /// The table of what is due to each contact: it stands for the journal of the store.
    pub fn retry(&self) -> &Retry
        ensures { StandsForRows self.now.state result.now }
    {
        self.state.retry()
    }
}
