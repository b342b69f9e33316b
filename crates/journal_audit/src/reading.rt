//! The frames of a journal's file are read, and its batches played one after the other.
ghost use Rattle.std.specs.Prelude.{◌≡◌, ◌+◌, ◌*◌, ◌<◌, ◌≤◌, ◌^◌, [], drop, IfOk, take};
ghost use Rattle.entry_codec.specs.Standing.{step_bytes};
ghost use Rattle.outside.specs.Frames.{closed, frame_at};
ghost use Rattle.journal_audit.specs.Frames.{IsOpenAt};
ghost use Rattle.journal_audit.specs.Reading.{ReadsStanding, ReadsFrames, ReadsOne, ReadSoFar, whole_of};

use crate::AuditFault;
use crate::facts::PlainFacts;
use crate::frames::{Gate, gate_at};
use crate::names::read_payload;
use crate::playing::admit;
use entry_codec::Format;
use outside::{MAX_JOURNAL, Place};
use std::alloc::{AllocError, Global};
use sync_ids::message_ids_are_whole;
use sync_rules::Clients;
use sync_rules::laws::allows_is_allowed;

/// What was read of a journal: the facts behind its batches, how many batches and entries there
/// were, and the place of the next gate.
#[derive(Drop)]
pub(crate) struct Played {
    pub(crate) facts: PlainFacts,
    pub(crate) batches: u64,
    pub(crate) entries: u64,
    place: usize,
}

// A count, and so many more. As want of memory counts that they are 2^64.
fn more(count: u64, by: u64) -> Result<u64, AllocError>
    ensures { IfOk result (λ n. n ≡ count + by) }
{
    count.checked_add(by).ok_or(AllocError)
}

// The payload of this length of a frame at this place.
fn payload_at(bytes: &[u8], place: usize, size: usize) -> &[u8]
    requires { IsOpenAt bytes.now place size }
    ensures { result.now ≡ take size (drop (place + 5) bytes.now) }
{
    let begin = place + 5;
    &bytes[begin..begin + size]
}

// Plays the batch of the frame at the next place, whose payload has this length.
fn play_frame<C: Clients>(
    alloc: Global,
    clients: &C,
    file: u8,
    format: Format,
    bytes: &[u8],
    played: &mut Played,
    size: usize,
) -> Result<(), AuditFault>
    requires so_far { ReadSoFar (C.meaning clients.now) file format bytes.now played.old }
    requires frame { IsOpenAt bytes.now played.old.place size }
    ensures { ReadsOne (C.meaning clients.now) file format bytes.now (played.old.place + 5 + size)
        played.new result }
{
    message_ids_are_whole();
    let _few = played.facts.messages.len();
    let at = Place {
        file,
        at: played.place as u64,
    };
    let payload = payload_at(bytes, played.place, size);
    let Some(batch) = read_payload(&played.facts, alloc, format, payload)? else {
        return Err(AuditFault::Damaged(at));
    };
    let count = batch.entries().len() as u64;
    if !admit(&mut played.facts, alloc, clients, batch)? {
        return Err(AuditFault::Damaged(at));
    }
    allows_is_allowed();
    played.batches = more(played.batches, 1)?;
    played.entries = more(played.entries, count)?;
    played.place += 5 + size;
    Ok(())
}

// Plays the batches of all frames up to a closed gate.
fn play_all<C: Clients>(
    alloc: Global,
    clients: &C,
    file: u8,
    format: Format,
    bytes: &[u8],
) -> Result<Played, AuditFault>
    ensures { ReadsFrames (C.meaning clients.now) file format bytes.now result }
{
    let mut played = Played {
        facts: PlainFacts::new(alloc)?,
        batches: 0,
        entries: 0,
        place: 14,
    };
    'frames: loop {
        match gate_at(bytes, played.place) {
            Gate::Closed => return Ok(played),
            Gate::Open(size) => {
                play_frame(alloc, clients, file, format, bytes, &mut played, size)?;
            }
            Gate::Broken => {
                return Err(AuditFault::Damaged(Place {
                    file,
                    at: played.place as u64,
                }));
            }
        }
    }
}

// The room for so many steps of settling, each in a frame of its own.
fn settling_room(format: Format, left: u64) -> u64
    requires { left < 2 ^ 33 }
    ensures value { result ≡ step_bytes format * left }
    ensures few { result < 2 ^ 39 }
{
    match format {
        Format::Whole => 38 * left,
        Format::Short => 10 * left,
    }
}

/// Reads the frames of a journal's file, whose format this is, behind its header.
pub(crate) fn read<C: Clients>(
    alloc: Global,
    clients: &C,
    file: u8,
    format: Format,
    bytes: &[u8],
) -> Result<Played, AuditFault>
    ensures { ReadsStanding (C.meaning clients.now) (whole_of (C.meaning clients.now) file format
        bytes.now) result }
{
    let played = play_all(alloc, clients, file, format, bytes)?;
    let room = settling_room(format, played.facts.messages.left());
    let at = played.place as u64;
    if at + 1 + room > MAX_JOURNAL {
        return Err(AuditFault::Damaged(Place { file, at }));
    }
    Ok(played)
}
