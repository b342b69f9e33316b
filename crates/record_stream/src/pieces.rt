//! A stream in any pieces.
ghost use Rattle.std.specs.Prelude.{◌≡◌, ◌++◌, IfOk};
ghost use Rattle.std.specs.List.{flat_map};
ghost use Rattle.record_grammar.specs.Stream.{ending, items};

use crate::listener::{Listener, hear_piece};
use crate::reader::Reader;
use record_grammar::{Ending, Item};
use std::alloc::{AllocError, Global};

/// What a stream has, and how it ends.
#[derive(Debug, Drop)]
pub struct Heard {
    /// The records and skipped records, in order.
    pub items: Vec<Item>,
    /// The stream's ending.
    pub ending: Ending,
}

// Keeps the items that it hears.
#[derive(Drop)]
struct Keeper {
    items: Vec<Item>,
}

impl Listener for Keeper {
    ghost use Rattle.std.specs.Prelude.{◌≡◌, ◌++◌};
    ghost use Rattle.std.proofs.Common.{append-nil, sym};

    ghost heard = { λ first items now. now.items.items ≡ first.items.items ++ items };

    ghost heard_nothing = { λ l. sym (append-nil l.items.items) };

    fn hear(&mut self, _alloc: Global, item: Item) -> Result<(), AllocError> {
        self.items.push(item)?;
        Ok(())
    }
}

/// What a stream has that comes in these pieces: however it is cut, the items and the ending of the
/// whole. It fails only for want of memory.
pub fn read_pieces(alloc: Global, pieces: &[Vec<u8>]) -> Result<Heard, AllocError>
    ensures items { IfOk result
        (λ heard. heard.items.items ≡ items 0 (flat_map (λ piece. piece.items) pieces.now)) }
    ensures ending { IfOk result
        (λ heard. heard.ending ≡ ending 0 (flat_map (λ piece. piece.items) pieces.now)) }
{
    let mut reader = Reader::new(alloc)?;
    let mut keeper = Keeper {
        items: Vec::new(alloc),
    };
    'pieces: for piece in pieces {
        hear_piece(alloc, &mut reader, piece.as_slice(), &mut keeper)?;
    }
    Ok(Heard {
        ending: reader.end(),
        items: keeper.items,
    })
}
