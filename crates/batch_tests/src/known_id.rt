//! The id of the message that a batch brings, which is computed once for the test of the batch and
//! for its taking.
ghost use Rattle.std.specs.Prelude.{◌≡◌};
ghost use Rattle.sync_ids.specs.Ids.{message_id_of};
ghost use Rattle.session_core.specs.Known.{IsIdOf, IsOfAll};

use sync_ids::{Message, MessageId};
use sync_rules::{Entry, id_of};

/// The id of the message of a batch that brings one and nothing more; `None` for another batch.
#[tactic(auto, using(session_core::proofs::Unknown::unknown))]
pub fn id_brought(entries: &[Entry]) -> Option<MessageId>
    ensures { IsOfAll result entries.now }
{
    match entries {
        [Entry::Author(message)]
        | [Entry::Kept(_, message)]
        | [Entry::Take(_, _), Entry::Arrive(_, message)] => Some(id_of(message)),
        _ => None,
    }
}

/// The id of a message, computed where it is not known.
pub fn id_known(known: &Option<MessageId>, message: &Message) -> MessageId
    requires { IsIdOf known.now message.now }
    ensures { result ≡ message_id_of message.now }
{
    match known {
        Some(id) => *id,
        None => id_of(message),
    }
}
