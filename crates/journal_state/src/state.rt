//! `State`.
ghost use Rattle.std.specs.Prelude.{◌≡◌, ◌<◌, ◌≤◌, [], length, IfOk, Some, slice_get};
ghost use Rattle.std.specs.Option.{option_map};
ghost use Rattle.sync_rules.specs.declared.limits.TheConstants.{MAX_CONTACTS};
ghost use Rattle.sync_rules.specs.Facts.{nothing, takes_of};
ghost use Rattle.brief_account.specs.Account.{with_groups};
ghost use Rattle.visibility_table.specs.Table.{empty_table};
ghost use Rattle.journal_state.specs.Lent.{StandsForRows};
ghost use Rattle.journal_state.specs.Sound.{IsSound};

use crate::graph::CountedGraph;
use crate::messages::Messages;
use crate::sessions::Sessions;
use retry_table::Retry;
use std::alloc::{AllocError, Global};
use std::hash::RandomState;
use std::marker::Model;
use sync_ids::{Fixed, GroupDef, GroupId, Message, MessageId};
use sync_rules::{Origin, Start};
use visibility_table::Levels;

/// The state of a journal without a disk: all that is asked of a journal, kept so that no answer
/// needs a walk over its entries. Contracts see the facts of the journal, the judgements of its
/// messages, and for how much more there is room.
pub struct State {
    pub(crate) start: Start,
    pub(crate) table: Levels,
    pub(crate) messages: Messages,
    pub(crate) sessions: Sessions,
    pub(crate) graph: CountedGraph,
    pub(crate) shares: Vec<bool>,
    pub(crate) delivered: Vec<u32>,
    pub(crate) retry: Retry,
    pub(crate) space: usize,
}

// Written out: whoever drops a state then proves one call, where a derived drop is proved part by
// part at each place.
impl Drop for State {
    fn drop(self) {
        let State {
            start: _,
            table: _,
            messages: _,
            sessions: _,
            graph: _,
            shares: _,
            delivered: _,
            retry: _,
            space: _,
        } = self;
    }
}

impl Model for State {
    ghost use Rattle.journal_state.specs.Whole.{StateValue, state_code, value_of};

    ghost Value = { StateValue };

    ghost coded = { state_code };

    ghost use Rattle.journal_state.specs.Inside.{parts, IsInsideWhole};

    ghost view = { λ s. value_of (parts s) };

    ghost invariant = { λ s. IsInsideWhole s };
}

impl State {
    /// The state of a journal that has no entries; ids are hashed by `hasher`. Answers an error
    /// where there is no memory.
    pub fn new(alloc: Global, hasher: RandomState) -> Result<State, AllocError>
        ensures facts { IfOk result (λ s. s.facts ≡ nothing) }
        ensures answers { IfOk result (λ s. s.answers ≡ []) }
    {
        let table = Levels::new(alloc)?;
        State::over(alloc, hasher, table)
    }

    /// The state that has these groups and nothing else; ids are hashed by `hasher`. Answers an
    /// error where there is no memory.
    pub(crate) fn over(
        alloc: Global,
        hasher: RandomState,
        table: Levels,
    ) -> Result<State, AllocError>
        requires { table ≡ record empty_table { groups = table.groups } }
        ensures facts { IfOk result (λ s. s.facts ≡ with_groups table.groups) }
        ensures answers { IfOk result (λ s. s.answers ≡ []) }
    {
        let graph = CountedGraph::new(alloc, hasher)?;
        let retry = Retry::new(alloc, hasher)?;
        Ok(State {
            start: Start::Empty,
            table,
            messages: Messages::new(alloc),
            sessions: Sessions::new(alloc),
            graph,
            shares: Vec::new(alloc),
            delivered: Vec::new(alloc),
            retry,
            space: 0,
        })
    }

    /// Shows the prover what holds of every state: its held messages stand under their own ids,
    /// which are distinct, are fewer than 2^32 and of known groups, its groups have distinct ids,
    /// only what is judged is delivered, and no session has begun before an entry. It does nothing.
    pub fn show_sound(&self)
        ensures { IsSound self.now }
    {
        let _held = self.messages.len();
        self.messages.show_named();
        self.table.show_distinct();
    }

    /// The number of held messages.
    pub fn held(&self) -> u32
        ensures { result ≡ length self.now.facts.held }
    {
        self.messages.len()
    }

    /// The number of contacts, at most `MAX_CONTACTS`.
    pub fn contacts(&self) -> u32
        ensures value { result ≡ self.now.facts.contacts }
        ensures few { result ≤ MAX_CONTACTS }
    {
        self.table.contacts()
    }

    /// The number of groups.
    pub fn groups(&self) -> u32
        ensures { result ≡ length self.now.facts.groups }
    {
        self.table.groups()
    }

    /// The number of sessions that have begun.
    pub fn sessions(&self) -> u32
        ensures { result ≡ self.now.facts.begun }
    {
        self.sessions.begun()
    }

    /// How many records were taken on the session of this number; 0 where there is none.
    pub fn takes(&self, session: u32) -> u64
        ensures { result ≡ takes_of self.now.facts.takes session }
    {
        self.sessions.takes(session)
    }

    /// The definition of the group of this number, which is below the number of groups.
    pub fn group_def(&self, n: u32) -> &GroupDef
        requires { n < length self.now.facts.groups }
        ensures { option_map (λ g. g.def) (slice_get self.now.facts.groups n) ≡ Some result.now }
    {
        self.table.def(n)
    }

    /// The id of the group of this number, which is below the number of groups.
    pub fn group_id_at(&self, n: u32) -> GroupId
        requires { n < length self.now.facts.groups }
        ensures { option_map (λ g. g.id) (slice_get self.now.facts.groups n) ≡ Some result }
    {
        self.table.id(n)
    }

    /// The held message of this arrival number, which is below the number of held messages.
    pub fn message(&self, n: u32) -> &Message
        requires { n < length self.now.facts.held }
        ensures { option_map (λ h. h.message) (slice_get self.now.facts.held n) ≡ Some result.now }
    {
        self.messages.message(n)
    }

    /// The id of the held message of this arrival number, which is below the number of held
    /// messages.
    pub fn id_at(&self, n: u32) -> MessageId
        requires { n < length self.now.facts.held }
        ensures { option_map (λ h. h.id) (slice_get self.now.facts.held n) ≡ Some result }
    {
        Fixed(self.graph.name(n))
    }

    /// Where the held message of this arrival number came from; the number is below the number of
    /// held messages.
    pub fn origin(&self, n: u32) -> Origin
        requires { n < length self.now.facts.held }
        ensures { option_map (λ h. h.origin) (slice_get self.now.facts.held n) ≡ Some result }
    {
        self.messages.origin(n)
    }

    /// The table of what is due to each contact.
    pub fn retry(&self) -> &Retry
        ensures { StandsForRows self.now result.now }
    {
        &self.retry
    }
}
