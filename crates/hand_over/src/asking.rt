//! A request, and its answer told on the outputs.
use crate::lines::Line;
use crate::wire::{Copied, Wire};
use outside::Sink;
use request_frames::{Head, InputSize, MAX_WORDS, append_head};
use std::alloc::{AllocError, Global};
use sync_words::Outcome;

/// What a node is asked.
#[derive(Clone, Copy)]
pub struct Question<'a> {
    /// The words of the command.
    pub words: &'a [String],
    /// What is said of its input.
    pub size: InputSize,
    /// The bytes of its input, piece by piece, where they are sent.
    pub input: &'a [Vec<u8>],
    /// Whether the command can be done as well by itself, as long as nothing was told.
    pub lists: bool,
}

/// Asks a node that hears, and tells its answer: the status is that of the answer. Nothing comes
/// where the command is to be done by itself: it only lists something, and the node went away before
/// anything was told. The outcome that comes in place of an answer is told by who calls. It fails
/// only for want of memory, and then nothing was asked.
pub fn ask<O: Sink, E: Sink>(
    alloc: Global,
    wire: Wire,
    question: &Question<'_>,
    out: &mut O,
    err: &mut E,
) -> Result<Option<Result<u8, Outcome>>, AllocError> {
    let mut wire = wire;
    let request = request_of(alloc, question.words, question.size)?;
    if request.len() > MAX_WORDS {
        return Ok(Some(Err(Outcome::NodeBusy)));
    }
    send(&mut wire, request.as_slice(), question.input);
    Ok(answered(&mut wire, question.lists, out, err))
}

// The head and the words of a request.
pub(crate) fn request_of(
    alloc: Global,
    words: &[String],
    input: InputSize,
) -> Result<Vec<u8>, AllocError> {
    let mut spelled = Vec::new(alloc);
    for word in words {
        spelled.extend_from_slice(word.as_bytes())?;
        spelled.push(0)?;
    }
    let mut request = Vec::new(alloc);
    let head = Head {
        words: spelled.len(),
        input,
    };
    append_head(&head, &mut request)?;
    request.extend_from_slice(spelled.as_slice())?;
    Ok(request)
}

// Sends a request and its input. Where the node takes no more it goes away, and what it said before is
// told all the same.
fn send(wire: &mut Wire, request: &[u8], input: &[Vec<u8>]) {
    if !wire.write(request) {
        return;
    }
    for piece in input {
        if !wire.write(piece.as_slice()) {
            break;
        }
    }
}

// What comes where the node went away before anything was told.
fn gone(lists: bool) -> Option<Result<u8, Outcome>> {
    if lists {
        None
    } else {
        Some(Err(Outcome::NoAnswer))
    }
}

// Waits for the answer and tells it. Notices that come before it are passed over.
fn answered<O: Sink, E: Sink>(
    wire: &mut Wire,
    lists: bool,
    out: &mut O,
    err: &mut E,
) -> Option<Result<u8, Outcome>> {
    for _ in 0..u64::MAX {
        match wire.line() {
            Some(Line::Answer(status, out_len, err_len)) => {
                return match wire.copy(out_len, out) {
                    Copied::Whole => Some(ended(wire, status, err_len, err)),
                    Copied::Ended(0) => gone(lists),
                    Copied::Ended(_) => Some(Err(Outcome::NoAnswer)),
                    Copied::Unwritten => Some(Err(Outcome::WriteFault)),
                };
            }
            Some(Line::Deliver(len) | Line::Other(len)) => {
                if !wire.pass(len) {
                    break;
                }
            }
            Some(Line::Quit) | None => break,
        }
    }
    gone(lists)
}

// Tells what the error output gets, and says the status. That the error output fails changes nothing.
pub(crate) fn ended<E: Sink>(
    wire: &mut Wire,
    status: u8,
    len: u64,
    err: &mut E,
) -> Result<u8, Outcome> {
    match wire.copy(len, err) {
        Copied::Whole | Copied::Unwritten => Ok(status),
        Copied::Ended(_) => Err(Outcome::NoAnswer),
    }
}
