// What the commands of mailbox files test over the loaded journal.
ghost use Rattle.std.specs.Prelude.{◌≡◌};
ghost use Rattle.mailbox_commands.specs.Tests.{mailbox_test};

use sync_rules::{MAX_SESSIONS, Refused};
use sync_store::Store;

/// The first test that fails: the contact is known, and one more session may begin.
pub(crate) fn refusal(store: &Store, contact: u8) -> Option<Refused>
    ensures { result ≡ mailbox_test store.now.state.facts contact }
{
    if u32::from(contact) >= store.contacts() {
        Some(Refused::UnknownContact)
    } else if store.sessions() < MAX_SESSIONS {
        None
    } else {
        Some(Refused::TooManySessions)
    }
}
