//! The format that a journal is written in, and the names that its entries may use.
ghost use Rattle.std.specs.Prelude.{◌≡◌, ◌*◌, ◌^◌, ◌<◌, ◌≤◌};
ghost use Rattle.entry_codec.specs.Standing.{step_bytes, step_len};
ghost use Rattle.sync_rules.specs.declared.limits.TheConstants.{MAX_STEPS};
ghost use Rattle.sync_store.specs.Store.{format_meant};

use entry_codec::{Format, Names};
use frame_journal::SECOND_FORMAT;
use journal_state::State;
use sync_ids::{MessageId, message_ids_are_whole};
use sync_rules::View;

// What the number of a journal's format means: it is 1 or 2.
pub(crate) fn format_meant(number: u8) -> Format
    ensures { result ≡ format_meant number }
{
    if number == SECOND_FORMAT {
        Format::Short
    } else {
        Format::Whole
    }
}

// The room for so many steps of settling, each in a frame of its own.
pub(crate) fn settling_room(format: Format, left: u64) -> u64
    requires { left < 2 ^ 33 }
    ensures { result ≡ step_bytes format * left }
{
    match format {
        Format::Whole => 38 * left,
        Format::Short => 10 * left,
    }
}

// How many bytes so many steps of settling are written in.
pub(crate) fn steps_len(format: Format, count: usize) -> usize
    requires { count ≤ MAX_STEPS }
    ensures value { result ≡ step_len format * count }
    ensures few { result ≤ 8448 }
{
    match format {
        Format::Whole => 33 * count,
        Format::Short => 5 * count,
    }
}

// The messages that a state holds, each named by its arrival number.
#[derive(Drop)]
pub(crate) struct HeldNames<'a> {
    pub(crate) state: &'a State,
}

impl<'a> Names for HeldNames<'a> {
    ghost use Rattle.entry_codec.specs.Payloads.{names_of};

    ghost named = { λ n. names_of n.state.now.facts };

    fn number(&self, id: &MessageId) -> Option<u32> {
        self.state.find(id)
    }

    fn name(&self, n: u32) -> Option<MessageId> {
        if n < self.state.held() {
            Some(self.state.id_at(n))
        } else {
            None
        }
    }

    fn show_names(&self) {
        self.state.show_sound();
        message_ids_are_whole();
    }
}
