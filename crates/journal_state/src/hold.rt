//! A message is held.
ghost use Rattle.std.specs.Prelude.{◌≡◌, ◌+◌, ◌-◌, ◌^◌, ◌<◌, ◌≤◌, ◌++◌, ◌∷◌, [], true, length};
ghost use Rattle.std.specs.Prelude.{None, is_some};
ghost use Rattle.sync_ids.specs.Ids.{message_id_of};
ghost use Rattle.sync_rules.specs.declared.limits.TheConstants.{MAX_CONTACTS};
ghost use Rattle.sync_rules.specs.Clients.{Meaning};
ghost use Rattle.sync_rules.specs.Facts.{group_at, held_at, wanted_by_none};
ghost use Rattle.journal_state.specs.Unwanted.{UnwantsBelow};
ghost use Rattle.journal_state.specs.Taking.{CanHold, SpendsRoom};
ghost use Rattle.journal_state.specs.Whole.{KnowsJudgements};

use crate::state::State;
use retry_table::Retry;
use std::alloc::AllocError;
use sync_ids::{Message, MessageId};
use sync_rules::{Entry, Origin};

/// Takes an id out of what is wanted from each of that many contacts.
fn unwant_from_all(retry: &mut Retry, contacts: u32, id: &MessageId)
    requires { contacts ≤ MAX_CONTACTS }
    ensures { UnwantsBelow contacts retry.old retry.new id.now }
{
    for contact in 0..contacts {
        retry.unwant(contact as u8, id);
    }
}

/// The message that the last entry brings, if it brings one.
fn message_brought(entries: &[Entry]) -> Option<&Message> {
    match entries.last() {
        Some(Entry::Author(message) | Entry::Arrive(_, message) | Entry::Kept(_, message)) => {
            Some(message)
        }
        _ => None,
    }
}

impl State {
    /// Notes the group of a message that may be held next, and makes its id known to the graph, so
    /// that each is hashed once. Nothing that is seen changes. It fails only for want of memory.
    pub(crate) fn announce(
        &mut self,
        entries: &[Entry],
        id: &Option<MessageId>,
    ) -> Result<(), AllocError>
        ensures { self.new ≡ self.old }
    {
        if let Some(message) = message_brought(entries) {
            self.table.find_group(&message.group());
        }
        match id {
            Some(id) => self.graph.announce(id.0),
            None => Ok(()),
        }
    }

    /// Holds a message under its id, where its group is known and the id is new, and answers its
    /// arrival number; it is then wanted from nobody.
    pub(crate) fn hold(&mut self, id: MessageId, message: Message, origin: Origin) -> u32
        requires named { id ≡ message_id_of message }
        requires can { CanHold self.old.facts message }
        requires room { 1 ≤ self.old.room.entries }
        ensures facts { self.new.facts ≡ record self.old.facts {
          held = self.old.facts.held ++ record {
            id = message_id_of message;
            message = message;
            origin = origin;
          } ∷ [];
          wanted = wanted_by_none self.old.facts.wanted (message_id_of message);
        } }
        ensures number { result ≡ length self.old.facts.held }
        ensures knows { (clients : Meaning) → KnowsJudgements clients self.old → KnowsJudgements clients self.new }
        ensures room { SpendsRoom self.old.room self.new.room }
    {
        let group = self.table.group(&message.group()).unwrap();
        self.space -= 1;
        let number = self.graph.hold(id.0, group);
        self.shares.push(false).unwrap();
        // Nothing is wanted from a contact that is not known.
        unwant_from_all(&mut self.retry, self.table.contacts(), &id);
        self.messages.hold(message, origin);
        number
    }
}
