// The lines that are printed.
ghost use Rattle.std.specs.Prelude.{◌≡◌, ◌≢◌, ◌++◌, OnOk};
ghost use Rattle.std.specs.String.{string_bytes};
ghost use Rattle.journal_play.specs.Keeping.{head_line};
ghost use Rattle.journal_play.specs.Playing.{head_of};

use crate::kept::Head;
use std::alloc::AllocError;
use sync_ids::Message;
use sync_rules::{Fate, id_of};
use sync_words::try_line;

/// What the line of a message says.
pub fn make_head(message: &Message) -> Head
    ensures { result ≡ head_of message.now }
{
    Head {
        id: id_of(message),
        timestamp: message.timestamp(),
        len: message.body().len() as u32,
    }
}

/// Adds the line of a held message.
pub fn add_line(state: Fate, head: &Head, text: &mut String) -> Result<(), AllocError>
    requires { state ≢ Fate.Unknown }
    ensures { OnOk result (string_bytes text.new ≡ string_bytes text.old ++ head_line state
        head.now) }
{
    try_line(state, &head.id, head.timestamp, head.len, text)
}
