// A journal that is played as its records are heard.
ghost use Rattle.std.specs.Prelude.{◌≡◌, [], ◌∷◌, ◌++◌, List};
ghost use Rattle.std.specs.Option.{option_to_list};
ghost use Rattle.record_grammar.specs.Stream.{records_of};
ghost use Rattle.sync_ids.specs.Values.{GroupValue};
ghost use Rattle.sync_ids.specs.declared.records.Record.{Record};
ghost use Rattle.journal_play.specs.Playing.{HasPlayed};

use journal_play::Play;
use record_stream::{Item, Listener};
use std::alloc::{AllocError, Global};
use sync_ids::Record;
use sync_rules::Clients;

/// Plays the records of a stream.
#[derive(Drop)]
pub struct Player<'a, C: Clients> {
    pub clients: &'a C,
    pub play: Play,
}

impl<'a, C: Clients> Listener for Player<'a, C> {
    ghost use Rattle.std.specs.Prelude.{refl};
    ghost use Rattle.stream_commands.specs.Plays.{PlaysItems};

    ghost heard = { λ first items now. PlaysItems (C.meaning first.clients.now) first.play items
        (C.meaning now.clients.now) now.play };

    ghost heard_nothing = { λ p. record { same = refl; takes = λ def records played. played } };

    fn hear(&mut self, alloc: Global, item: Item) -> Result<(), AllocError> {
        let Some(record) = record_in(item) else {
            return Ok(());
        };
        self.play.hear(alloc, self.clients, record)?;
        Ok(())
    }
}

// The record of an item that is one.
#[tactic(auto, unfolding(record_grammar::specs::Stream::records_of))]
fn record_in(item: Item) -> Option<Record>
    ensures { records_of (item ∷ []) ≡ option_to_list result }
{
    match item {
        Item::One(_, record) => Some(record),
        Item::Skipped(_, _, _) => None,
    }
}
