//! The names of the messages that a state held first.
use entry_codec::Names;
use journal_state::State;
use sync_ids::{MessageId, message_ids_are_whole};
use sync_rules::View;

/// The first so many messages that a state holds, each named by its arrival number.
#[derive(Drop)]
pub struct FirstNames<'a> {
    /// The state.
    pub state: &'a State,
    /// How many of its messages have names; the others have none.
    pub count: u32,
}

impl<'a> Names for FirstNames<'a> {
    ghost use Rattle.std.specs.Prelude.{take};
    ghost use Rattle.entry_codec.specs.Payloads.{names_of};

    ghost named = { λ n. take n.count (names_of n.state.now.facts) };

    fn number(&self, id: &MessageId) -> Option<u32> {
        let number = self.state.find(id)?;
        if number < self.count {
            Some(number)
        } else {
            None
        }
    }

    fn name(&self, n: u32) -> Option<MessageId> {
        if n >= self.count {
            return None;
        }
        if n < self.state.held() {
            Some(self.state.id_at(n))
        } else {
            None
        }
    }

    fn show_names(&self) {
        self.state.show_sound();
        message_ids_are_whole();
    }
}
