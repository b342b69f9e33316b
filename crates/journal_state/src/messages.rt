//! The held messages, in order of arrival.
ghost use Rattle.std.specs.Prelude.{◌≡◌, ◌+◌, ◌-◌, ◌^◌, ◌<◌, ◌≤◌, ◌++◌, ◌∷◌, [], length, OnOk};
ghost use Rattle.std.specs.Prelude.{Some, slice_get};
ghost use Rattle.std.specs.List.{AllByRecursion};
ghost use Rattle.std.specs.Option.{option_map};
ghost use Rattle.journal_state.specs.Holding.{IsOwnId};
ghost use Rattle.sync_ids.specs.Ids.{message_id_of};

use std::alloc::{AllocError, Global};
use std::marker::Model;
use sync_ids::Message;
use sync_rules::Origin;

/// A held message, and where it came from.
#[derive(Drop)]
pub(crate) struct KeptMessage {
    pub(crate) message: Message,
    pub(crate) origin: Origin,
}

/// The held messages, in order of arrival; the waiting graph has their ids. Contracts see the list
/// of them, each under its own id, and for how many more there is room.
#[derive(Drop)]
pub(crate) struct Messages {
    kept: Vec<KeptMessage>,
}

impl Model for Messages {
    ghost use Rattle.journal_state.specs.Holding.{Holding, held_of};

    ghost Value = { Holding };

    ghost use Rattle.std.specs.Prelude.{◌-◌, ◌<◌, ◌^◌, length, map, vec_capacity};

    ghost view = { λ m. record {
      held = map held_of m.kept.items;
      room = vec_capacity m.kept - length m.kept.items;
    } };

    ghost invariant = { λ m. length m.kept.items < 2 ^ 32 };
}

impl Messages {
    /// No messages.
    pub(crate) fn new(alloc: Global) -> Messages
        ensures { result.held ≡ [] }
    {
        Messages {
            kept: Vec::new(alloc),
        }
    }

    /// Makes room for that many more messages; it never takes room away.
    pub(crate) fn reserve(&mut self, messages: usize) -> Result<(), AllocError>
        ensures held { self.new.held ≡ self.old.held }
        ensures room { self.old.room ≤ self.new.room }
        ensures ok { OnOk result (messages ≤ self.new.room) }
    {
        self.kept.reserve(messages)
    }

    /// Holds one more message.
    pub(crate) fn hold(&mut self, message: Message, origin: Origin)
        requires room { 0 < self.old.room }
        requires few { length self.old.held < 2 ^ 32 - 1 }
        ensures held { self.new.held ≡ self.old.held ++ record {
          id = message_id_of message;
          message = message;
          origin = origin;
        } ∷ [] }
        ensures left { self.old.room ≤ self.new.room + 1 }
    {
        self.kept.push(KeptMessage { message, origin }).unwrap();
    }

    /// Shows the prover that each message is held under its own id. It does nothing.
    pub(crate) fn show_named(&self)
        ensures { AllByRecursion IsOwnId self.now.held }
    {
        let _held = self.kept.len();
    }

    /// The number of held messages.
    pub(crate) fn len(&self) -> u32
        ensures { result ≡ length self.now.held }
    {
        self.kept.len() as u32
    }

    /// The held message of this arrival number.
    pub(crate) fn message(&self, n: u32) -> &Message
        requires { n < length self.now.held }
        ensures { option_map (λ h. h.message) (slice_get self.now.held n) ≡ Some result.now }
    {
        &self.kept[n as usize].message
    }

    /// Where it came from.
    pub(crate) fn origin(&self, n: u32) -> Origin
        requires { n < length self.now.held }
        ensures { option_map (λ h. h.origin) (slice_get self.now.held n) ≡ Some result }
    {
        self.kept[n as usize].origin
    }
}
