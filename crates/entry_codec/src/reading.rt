//! Reading an entry.
ghost use Rattle.std.specs.Prelude.{IfOk};
ghost use Rattle.entry_codec.specs.Laws.{IsEntryRead, IsReadIn};
ghost use Rattle.entry_codec.specs.Answers.{ReadsPartFrom};
ghost use Rattle.entry_codec.specs.Reading.{account_of, entry_by, entry_of, entry_in, heard_of};
ghost use Rattle.entry_codec.specs.Reading.{held_in, known_of, meant, moved_of, id_in, pair_in};
ghost use Rattle.entry_codec.specs.Reading.{step_of};
ghost use Rattle.entry_codec.specs.declared.naming.Format.TheVariants as format_kind;

use crate::front::Front;
use crate::naming::{Format, Names, NoNames};
use crate::stop::Stop;
use crate::values::{
    read_def, read_level, read_message, read_origin, read_out, read_session, read_tried,
};
use std::alloc::{AllocError, Global};
use sync_ids::MessageId;
use sync_rules::Entry;

/// What was found at the front of some bytes.
#[derive(Debug, Drop)]
pub enum EntryFound {
    /// An entry, and how many bytes it takes.
    One(Entry, usize),
    /// No entry: no front of the bytes spells one.
    BadEntry,
}

#[tactic(auto, unfolding(crate::specs::Reading::pair_in))]
fn read_pair<N: Names>(
    format: Format,
    names: &N,
    front: &mut Front,
) -> Result<(u32, MessageId), Stop>
    ensures { ReadsPartFrom (pair_in (held_in format (N.named names.now))) front.old.rest.now result
        front.new.rest.now }
{
    let session = front.read_u32()?;
    let id = front.read_held(format, names)?;
    Ok((session, id))
}

// What follows the tags 1 to 3.
fn read_known(alloc: Global, tag: u8, front: &mut Front) -> Result<Entry, Stop>
    ensures { ReadsPartFrom (known_of tag) front.old.rest.now result front.new.rest.now }
{
    match tag {
        1 => Ok(Entry::Contact(front.read_byte()?)),
        2 => Ok(Entry::Group(read_def(alloc, front)?)),
        3 => {
            let contact = front.read_byte()?;
            let group = front.read_id()?;
            Ok(Entry::Level(contact, group, read_level(front)?))
        }
        _ => Err(Stop::BadEntry),
    }
}

// What follows the tags 4 to 7, and 15.
fn read_moved<N: Names>(
    alloc: Global,
    format: Format,
    names: &N,
    tag: u8,
    front: &mut Front,
) -> Result<Entry, Stop>
    ensures { ReadsPartFrom (moved_of (held_in format (N.named names.now)) tag) front.old.rest.now result
        front.new.rest.now }
{
    match tag {
        4 => Ok(Entry::Session(read_session(front)?)),
        5 => {
            let session = front.read_u32()?;
            Ok(Entry::Take(session, front.read_u64()?))
        }
        6 => Ok(Entry::Author(read_message(alloc, front)?)),
        7 => {
            let session = front.read_u32()?;
            Ok(Entry::Arrive(session, read_message(alloc, front)?))
        }
        15 => {
            let session = front.read_u32()?;
            let now = front.read_u64()?;
            Ok(Entry::Out(session, now, read_out(alloc, format, names, front)?))
        }
        _ => Err(Stop::BadEntry),
    }
}

// What follows the tags 8 to 10.
fn read_step<N: Names>(format: Format, names: &N, tag: u8, front: &mut Front) -> Result<Entry, Stop>
    ensures { ReadsPartFrom (λ bytes. meant (step_of tag) (held_in format (N.named names.now) bytes))
        front.old.rest.now result front.new.rest.now }
{
    let id = front.read_held(format, names)?;
    match tag {
        8 => Ok(Entry::Judged(id)),
        9 => Ok(Entry::Deliver(id)),
        10 => Ok(Entry::Invalid(id)),
        _ => Err(Stop::BadEntry),
    }
}

// What follows the tags 11, 13 and 14.
fn read_heard<N: Names>(
    format: Format,
    names: &N,
    tag: u8,
    front: &mut Front,
) -> Result<Entry, Stop>
    ensures { ReadsPartFrom
        (λ bytes. meant (heard_of tag) (pair_in (held_in format (N.named names.now)) bytes))
        front.old.rest.now result front.new.rest.now }
{
    let (session, id) = read_pair(format, names, front)?;
    match tag {
        11 => Ok(Entry::Again(session, id)),
        13 => Ok(Entry::Seen(session, id)),
        14 => Ok(Entry::Asked(session, id)),
        _ => Err(Stop::BadEntry),
    }
}

// What follows the tags 16 to 19, which format 1 has not. The message of the tag 19 is not held.
fn read_account<N: Names>(
    alloc: Global,
    format: Format,
    names: &N,
    tag: u8,
    front: &mut Front,
) -> Result<Entry, Stop>
    ensures { ReadsPartFrom (account_of format (held_in format (N.named names.now)) tag)
        front.old.rest.now result front.new.rest.now }
{
    match format {
        Format::Whole => Err(Stop::BadEntry),
        Format::Short => read_stated(alloc, names, tag, front),
    }
}

// The same in format 2.
fn read_stated<N: Names>(
    alloc: Global,
    names: &N,
    tag: u8,
    front: &mut Front,
) -> Result<Entry, Stop>
    ensures { ReadsPartFrom
        (account_of format_kind.Short (held_in format_kind.Short (N.named names.now)) tag)
        front.old.rest.now result front.new.rest.now }
{
    match tag {
        16 => Ok(Entry::Brief(front.read_u32()?)),
        17 => {
            let from = read_origin(front)?;
            Ok(Entry::Kept(from, read_message(alloc, front)?))
        }
        18 => Ok(Entry::Tried(read_tried(Format::Short, names, front)?)),
        19 => {
            let contact = front.read_byte()?;
            Ok(Entry::Want(contact, front.read_id()?))
        }
        _ => Err(Stop::BadEntry),
    }
}

// An entry of this format. The message of the tag 12 is not held.
#[tactic(auto, unfolding(crate::specs::Reading::entry_by))]
pub(crate) fn read_tagged<N: Names>(
    alloc: Global,
    format: Format,
    names: &N,
    front: &mut Front,
) -> Result<Entry, Stop>
    ensures { ReadsPartFrom (entry_by format (held_in format (N.named names.now))) front.old.rest.now
        result front.new.rest.now }
{
    let tag = front.read_byte()?;
    match tag {
        1..=3 => read_known(alloc, tag, front),
        8..=10 => read_step(format, names, tag, front),
        12 => {
            let (session, id) = read_pair(Format::Whole, names, front)?;
            Ok(Entry::Offered(session, id))
        }
        11 => read_heard(format, names, tag, front),
        13 => read_heard(format, names, tag, front),
        14 => read_heard(format, names, tag, front),
        16..=19 => read_account(alloc, format, names, tag, front),
        _ => read_moved(alloc, format, names, tag, front),
    }
}

// What these bytes begin with, in this format.
fn read_found<N: Names>(
    alloc: Global,
    format: Format,
    names: &N,
    bytes: &[u8],
) -> Result<EntryFound, AllocError>
    ensures { IfOk result (λ found. IsReadIn format (N.named names.now) bytes.now found) }
{
    names.show_names();
    let mut front = Front { rest: bytes };
    match read_tagged(alloc, format, names, &mut front) {
        Ok(entry) => Ok(EntryFound::One(entry, bytes.len() - front.rest.len())),
        Err(Stop::BadEntry) => Ok(EntryFound::BadEntry),
        Err(Stop::Memory) => Err(AllocError),
    }
}

/// Reads the entry at the front of these bytes, in format 1. `BadEntry` comes exactly where no
/// front of them is the spelling of an entry within its limits; the kinds that stand in a brief
/// account alone have none. It fails only for want of memory.
pub fn read_entry(alloc: Global, bytes: &[u8]) -> Result<EntryFound, AllocError>
    ensures { IfOk result (λ found. IsEntryRead bytes.now found) }
{
    read_found(alloc, Format::Whole, &NoNames, bytes)
}

/// Reads the entry at the front of these bytes, in format 2, where these are the names of the
/// messages held. `BadEntry` comes exactly where no front of them is the spelling of an entry
/// within its limits; a number that names no message is no spelling. It fails only for want of
/// memory.
pub fn read_short<N: Names>(
    alloc: Global,
    bytes: &[u8],
    names: &N,
) -> Result<EntryFound, AllocError>
    ensures { IfOk result
        (λ found. IsReadIn format_kind.Short (N.named names.now) bytes.now found) }
{
    read_found(alloc, Format::Short, names, bytes)
}
