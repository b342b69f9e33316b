//! What a client says of a group's messages.
ghost use Rattle.std.specs.Prelude.{◌≡◌, ◌<◌, ◌≤◌, ◌↔◌, true, false, length, IfOk, IsErrOf};
ghost use Rattle.sync_rules.specs.Lists.{has_repeat, IsDepList};

use crate::limits::MAX_DEPS;
use std::alloc::{AllocError, Global};
use std::marker::Model;
use sync_ids::{Message, MessageId};
use thiserror::Error;

/// The dependencies of a message: 0 to 255 distinct ids. Contracts see the list of the ids.
#[derive(Debug, Drop)]
pub struct DepList {
    ids: Vec<MessageId>,
}

impl Model for DepList {
    ghost use Rattle.std.specs.Prelude.{List, ℕ};
    ghost use Rattle.sync_rules.specs.Lists.{IsDepList};

    ghost Value = { List (List ℕ) };

    ghost view = { λ d. d.ids.items };

    ghost invariant = { λ d. IsDepList d.ids.items };
}

/// Why a list of dependencies was refused.
#[derive(Clone, Copy, Debug, PartialEq, Eq, Error)]
pub enum DepFault {
    /// There are over 255.
    #[error("a message has over 255 dependencies")]
    TooMany,
    /// Two are equal.
    #[error("two dependencies are equal")]
    Repeated,
}

impl DepList {
    /// A list of these ids. `TooMany` comes exactly where there are over 255, and otherwise
    /// `Repeated` exactly where two are equal. It takes no memory.
    pub fn new(ids: Vec<MessageId>) -> Result<Self, DepFault>
        ensures made { IfOk result (λ d. d ≡ ids.items) }
        ensures within { IfOk result (λ d. IsDepList d) }
        ensures too_many { IsErrOf result DepFault.TooMany ↔ (MAX_DEPS < length ids.items) }
        ensures repeated { IsErrOf result DepFault.Repeated
            ↔ ((length ids.items ≤ MAX_DEPS) × (has_repeat ids.items ≡ true)) }
    {
        if ids.len() > MAX_DEPS {
            return Err(DepFault::TooMany);
        }
        if has_two_equal(ids.as_slice()) {
            return Err(DepFault::Repeated);
        }
        Ok(DepList { ids })
    }

    /// The ids.
    pub fn as_slice(&self) -> &[MessageId]
        ensures value { result.now ≡ self.now }
        ensures within { IsDepList self.now }
    {
        self.ids.as_slice()
    }
}

// Whether two of the ids are equal.
fn has_two_equal(ids: &[MessageId]) -> bool
    ensures { result ≡ has_repeat ids.now }
{
    for (i, id) in ids.iter().enumerate() {
        if ids[i + 1..].contains(id) {
            return true;
        }
    }
    false
}

/// A client's judgement of a message.
#[derive(Debug, Drop)]
pub enum Judgement {
    /// The message is invalid.
    Refuse,
    /// The message is valid; it may be delivered once these are, and `share` says whether it may be
    /// sent on to others.
    Accept {
        /// The messages that it depends on.
        deps: DepList,
        /// Whether it may be sent on to others than its author's contacts.
        share: bool,
    },
}

/// The clients of a node. Each answer is the trait's meaning of its arguments alone.
pub trait Clients {
    ghost use Rattle.sync_rules.specs.Clients.{Meaning};

    ghost meaning: { Self → Meaning };

    /// The kind of the client that has groups of this name and major version, if there is one.
    fn kind_of(&self, name: &str, major: u32) -> Option<u8>
        ensures { result ≡ (meaning self.now).kind_of name.now major };

    /// What the client of this kind says of the message. It fails only for want of memory.
    fn judge(&self, alloc: Global, kind: u8, message: &Message) -> Result<Judgement, AllocError>
        ensures { IfOk result (λ a. a ≡ (meaning self.now).verdict kind message.now) };
}
