// What is kept of a held message.
ghost use Rattle.std.specs.Prelude.{◌≡◌};
ghost use Rattle.journal_play.specs.Holding.{head_with, rest_of};

use sync_ids::{Message, MessageId};

/// What the line of a message says: its id, its time in milliseconds, and the length of its body in
/// bytes.
#[derive(Clone, Copy)]
pub struct Head {
    pub id: MessageId,
    pub timestamp: u64,
    pub len: u32,
}

/// What the line of a message says beside its id.
#[derive(Clone, Copy)]
pub(crate) struct Rest {
    timestamp: u64,
    len: u32,
}

impl Rest {
    /// What is said beside the id.
    pub(crate) fn of(head: &Head) -> Rest
        ensures { result ≡ rest_of head.now }
    {
        Rest {
            timestamp: head.timestamp,
            len: head.len,
        }
    }

    /// The whole, with this id.
    pub(crate) fn with_id(&self, id: MessageId) -> Head
        ensures { result ≡ head_with id self.now }
    {
        Head {
            id,
            timestamp: self.timestamp,
            len: self.len,
        }
    }
}

/// A message that was just held, with its number.
#[derive(Drop)]
pub struct Fresh {
    pub number: u32,
    pub message: Message,
}
