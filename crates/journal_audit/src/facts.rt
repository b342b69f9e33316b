//! The facts of a journal.
ghost use Rattle.std.specs.Prelude.{◌≡◌, IfOk};
ghost use Rattle.sync_rules.specs.Clients.{Meaning};
ghost use Rattle.sync_rules.specs.Facts.{nothing};
ghost use Rattle.journal_audit.specs.Plain.{IsPlainSound, KnowsMeanings, facts_of};

use crate::early::Early;
use crate::groups::Groups;
use crate::hints::Hints;
use crate::levels::Levels;
use crate::messages::Messages;
use crate::numbers::{ByContact, Numbers};
use crate::ready::Ready;
use crate::rows::Rows;
use crate::sessions::Sessions;
use crate::sleepers::Sleepers;
use crate::wants::Wants;
use std::alloc::{AllocError, Global};
use sync_rules::Start;

/// The facts of a journal as the definitions have them, in maps and sets. Two sets of arrival numbers
/// say where it is worth to look for steps and for what is owed: each has the messages that matter,
/// and maybe more. Others say which messages may go to each contact.
#[derive(Drop)]
pub(crate) struct PlainFacts {
    /// How the journal began.
    pub(crate) start: Start,
    /// The number of contacts.
    pub(crate) contacts: u32,
    /// The groups.
    pub(crate) groups: Groups,
    /// The levels of groups for contacts.
    pub(crate) levels: Levels,
    /// The sessions, and the records taken on each.
    pub(crate) sessions: Sessions,
    /// The held messages.
    pub(crate) messages: Messages,
    /// What is kept of each message for each contact.
    pub(crate) rows: Rows,
    /// The ids wanted from each contact.
    pub(crate) wants: Wants,
    /// The messages that may have a step.
    pub(crate) waiting: Numbers,
    /// The others that have not ended, under each of their dependencies.
    pub(crate) sleepers: Sleepers,
    /// Where to look first.
    pub(crate) hints: Hints,
    /// For each contact the messages that may wait for our acknowledgement.
    pub(crate) owed: ByContact,
    /// For each contact where the messages stand that may go to it.
    pub(crate) ready: Ready,
    /// For each contact how far no message goes before its time.
    pub(crate) early: Early,
}

impl PlainFacts {
    /// The facts of a journal that has no entry.
    pub(crate) fn new(alloc: Global) -> Result<PlainFacts, AllocError>
        ensures facts { IfOk result (λ p. facts_of p ≡ nothing) }
        ensures sound { IfOk result (λ p. IsPlainSound p) }
        ensures knows { IfOk result (λ p. (clients : Meaning) → KnowsMeanings clients p) }
    {
        Ok(PlainFacts {
            start: Start::Empty,
            contacts: 0,
            groups: Groups::new(alloc),
            levels: Levels::new(alloc),
            sessions: Sessions::new(alloc),
            messages: Messages::new(alloc),
            rows: Rows::new(alloc),
            wants: Wants::new(alloc),
            waiting: Numbers::new(alloc),
            sleepers: Sleepers::new(alloc),
            hints: Hints::new(alloc),
            owed: ByContact::new(alloc)?,
            ready: Ready::new(alloc)?,
            early: Early::new(alloc)?,
        })
    }
}
