//! What a node tells of deliveries, told on the output.
use crate::asking::{ended, request_of};
use crate::lines::Line;
use crate::wire::{Copied, Wire};
use outside::Sink;
use request_frames::InputSize;
use std::alloc::{AllocError, Global};
use sync_words::Outcome;

/// Asks a node that hears to tell what is delivered, by these words, and writes that to the output
/// for as long as the node is there. It ends with status 0 where the node ends in order, and else
/// with the answer's status, or with `no answer` or `write fault`. It fails only for want of memory,
/// and then nothing was asked.
pub fn watch<O: Sink, E: Sink>(
    alloc: Global,
    wire: Wire,
    words: &[String],
    out: &mut O,
    err: &mut E,
) -> Result<Result<u8, Outcome>, AllocError> {
    let mut wire = wire;
    let request = request_of(alloc, words, InputSize::Bytes(0))?;
    if !wire.write(request.as_slice()) {
        return Ok(Err(Outcome::NoAnswer));
    }
    for _ in 0..u64::MAX {
        let Some(line) = wire.line() else {
            break;
        };
        if let Some(came) = told(&mut wire, line, out, err) {
            return Ok(came);
        }
    }
    Ok(Err(Outcome::NoAnswer))
}

// Tells what follows a line, and says how it ends where it does.
fn told<O: Sink, E: Sink>(
    wire: &mut Wire,
    line: Line,
    out: &mut O,
    err: &mut E,
) -> Option<Result<u8, Outcome>> {
    match line {
        Line::Answer(0, out_len, err_len) => {
            if wire.pass(out_len) && wire.pass(err_len) {
                None
            } else {
                Some(Err(Outcome::NoAnswer))
            }
        }
        Line::Answer(status, out_len, err_len) => {
            if wire.pass(out_len) {
                Some(ended(wire, status, err_len, err))
            } else {
                Some(Err(Outcome::NoAnswer))
            }
        }
        Line::Deliver(len) => match wire.copy(len, out) {
            Copied::Whole => None,
            Copied::Ended(_) => Some(Err(Outcome::NoAnswer)),
            Copied::Unwritten => Some(Err(Outcome::WriteFault)),
        },
        Line::Quit => Some(Ok(0)),
        Line::Other(len) => {
            if wire.pass(len) {
                None
            } else {
                Some(Err(Outcome::NoAnswer))
            }
        }
    }
}
