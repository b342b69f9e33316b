//! A stream of records that comes in pieces, read through one buffer (BSP, "Records"). A reader
//! gives the items one by one (`reader`), out of one piece after the other (`piece`), to whoever
//! asks for them or to a listener (`listener`).
#![tactic(auto)]

mod laws;
mod listener;
mod piece;
mod pieces;
mod reader;

pub use laws::{readings_are_whole, readings_follow, readings_join, readings_widen};
pub use listener::{Listener, hear_piece};
pub use piece::Piece;
pub use pieces::{Heard, read_pieces};
pub use reader::{BUFFER_LEN, Next, Reader};
pub use record_grammar::{Ending, Item, Reason};
