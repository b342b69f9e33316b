//! Who hears the items of a stream.
ghost use Rattle.std.specs.Prelude.{◌≡◌, [], ◌∷◌, ◌++◌, List, IfOk, OnOk, option_to_list};
ghost use Rattle.record_grammar.specs.declared.stream.Item.{Item};
ghost use Rattle.record_stream.specs.Pieces.{Hearing, LeavesOfPiece};
ghost use Rattle.record_stream.specs.Reading.{AwaitsBytes, ReadsOn};

use crate::piece::Piece;
use crate::reader::{Next, Reader};
use record_grammar::Item;
use std::alloc::{AllocError, Global};

/// Who is handed the items of a stream, one after the other.
pub trait Listener {
    /// From this state, by hearing these items in order, it came to that state.
    ghost heard: { Self → List Item → Self → Type 0 };

    /// Hears one item more. It fails only for want of memory, and then nothing is said of it.
    fn hear(&mut self, alloc: Global, item: Item) -> Result<(), AllocError>
        ensures { OnOk result ((first : Self) (items : List Item)
            → heard first items self.old → heard first (items ++ item ∷ []) self.new) };

    /// By hearing nothing it stays as it is.
    ghost heard_nothing: { (l : Self) → heard l [] l };
}

/// Reads a piece of a stream to its end, and hands each item that it completes to the listener.
/// Once the reader has failed nothing that comes counts. It fails only for want of memory.
pub fn hear_piece<L: Listener>(
    alloc: Global,
    reader: &mut Reader,
    piece: &[u8],
    listener: &mut L,
) -> Result<(), AllocError>
    ensures heard { OnOk result (Hearing L.heard piece.now reader.old [] reader.new
        listener.old listener.new) }
    ensures waits { OnOk result (AwaitsBytes reader.new) }
{
    let mut left = Piece::new(piece);
    'items: while let Some(item) = next_item(reader, &mut left)? {
        listener.hear(alloc, item)?;
    }
    Ok(())
}

// The next item that ends in this piece, if one does.
fn next_item(reader: &mut Reader, piece: &mut Piece) -> Result<Option<Item>, AllocError>
    ensures reads { IfOk result
        (λ i. ReadsOn piece.old reader.old (option_to_list i) piece.new reader.new) }
    ensures left { IfOk result (λ i. LeavesOfPiece i piece.old reader.old piece.new reader.new) }
{
    match reader.next_in(piece)? {
        Next::One(place, record) => Ok(Some(Item::One(place, record))),
        Next::Skipped(place, type_byte, len) => Ok(Some(Item::Skipped(place, type_byte, len))),
        Next::More | Next::Bad(_, _) => Ok(None),
    }
}
