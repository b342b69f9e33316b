// The items of a stream, listed.
ghost use Rattle.std.specs.String.{string_bytes};
ghost use Rattle.stream_commands.specs.RecordText.{items_text};

use record_stream::{Item, Listener};
use std::alloc::{AllocError, Global};
use sync_words::{record_line, skipped_line};

/// Lists the items of a stream, a line each.
#[derive(Drop)]
pub struct Lister {
    pub text: String,
}

impl Listener for Lister {
    ghost use Rattle.std.specs.Prelude.{◌≡◌, ◌++◌};
    ghost use Rattle.std.proofs.Common.{append-nil, sym};

    ghost heard = { λ first items now. string_bytes now.text ≡ string_bytes first.text
        ++ items_text items };

    ghost heard_nothing = { λ l. sym (append-nil (string_bytes l.text)) };

    fn hear(&mut self, alloc: Global, item: Item) -> Result<(), AllocError> {
        match item {
            Item::One(place, record) => record_line(alloc, place, &record, &mut self.text),
            Item::Skipped(place, type_byte, len) => {
                skipped_line(place, type_byte, len, &mut self.text)
            }
        }
    }
}
