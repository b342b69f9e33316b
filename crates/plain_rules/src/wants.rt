//! The ids that are wanted from contacts, as lines.
ghost use Rattle.plain_rules.specs.Wants.{lines_without, want_then, want_then_out, wanted_in};
ghost use Rattle.plain_rules.specs.Wants.{WantsAre, with_line};
ghost use Rattle.std.specs.Prelude.{◌≡◌, ◌+◌, ◌≤◌, ◌&&◌, ◌∷◌, ◌++◌, [], length, nat_eq, cond, ◌||◌};
ghost use Rattle.std.specs.Prelude.{IfOk};
ghost use Rattle.sync_rules.specs.Facts.{after_all, facts, is_held};
ghost use Rattle.sync_rules.specs.Lists.{is_among, same_id};

use crate::rows::is_in;
use crate::sessions::contact_before;
use std::alloc::{AllocError, Global};
use sync_ids::MessageId;
use sync_rules::lookups::{find_message, held_in};
use sync_rules::{Batch, Entry, Out, id_of};

// An id that is wanted from a contact.
#[derive(Clone, Copy, Debug, Drop)]
pub(crate) struct WantedLine {
    contact: u8,
    id: MessageId,
}

// Whether the id is wanted from the contact.
pub(crate) fn is_wanted_in(lines: &[WantedLine], contact: u8, id: &MessageId) -> bool
    ensures { result ≡ is_among (wanted_in contact lines.now) id.now }
{
    for line in lines {
        if contact == line.contact && line.id == *id {
            return true;
        }
    }
    false
}

// How many ids are wanted from the contact.
pub(crate) fn count_wanted(lines: &[WantedLine], contact: u8) -> usize
    ensures value { result ≡ length (wanted_in contact lines.now) }
    ensures within { result ≤ length lines.now }
{
    let mut count = 0;
    for line in lines {
        if contact == line.contact {
            count += 1;
        }
    }
    count
}

// The ids that are wanted from the contact.
pub(crate) fn list_wanted(
    alloc: Global,
    lines: &[WantedLine],
    contact: u8,
) -> Result<Vec<MessageId>, AllocError>
    ensures { IfOk result (λ ids. ids.items ≡ wanted_in contact lines.now) }
{
    let mut ids = Vec::new(alloc);
    for line in lines {
        if contact == line.contact {
            ids.push(line.id)?;
        }
    }
    Ok(ids)
}

// The lines of other messages than this one.
fn without_held(
    alloc: Global,
    lines: &[WantedLine],
    id: &MessageId,
) -> Result<Vec<WantedLine>, AllocError>
    ensures { IfOk result (λ kept. kept.items ≡ lines_without (λ w. same_id w.id id.now)
        lines.now) }
{
    let mut kept = Vec::new(alloc);
    for line in lines {
        if line.id != *id {
            kept.push(WantedLine {
                contact: line.contact,
                id: line.id,
            })?;
        }
    }
    Ok(kept)
}

// The lines but those of this contact and these ids.
fn without_requested(
    alloc: Global,
    lines: &[WantedLine],
    contact: u8,
    ids: &[MessageId],
) -> Result<Vec<WantedLine>, AllocError>
    ensures { IfOk result
        (λ kept. kept.items ≡ lines_without (λ w. nat_eq w.contact contact && is_among ids.now w.id)
        lines.now) }
{
    let mut kept = Vec::new(alloc);
    for line in lines {
        if !(line.contact == contact && is_in(ids, &line.id)) {
            kept.push(WantedLine {
                contact: line.contact,
                id: line.id,
            })?;
        }
    }
    Ok(kept)
}

#[tactic(auto, using(crate::proofs::WantScans::held_before))]
fn is_held_before(earlier: &[Batch], before: &[Entry], id: &MessageId) -> bool
    ensures { result ≡ is_held (after_all (facts earlier.now) before.now).held id.now }
{
    held_in(earlier, id).is_some() || find_message(before, id).is_some()
}

// The lines with an id that the contact offered, unless it is held or wanted already.
fn with_offered(
    lines: Vec<WantedLine>,
    is_held: bool,
    contact: u8,
    id: &MessageId,
) -> Result<Vec<WantedLine>, AllocError>
    ensures { IfOk result
        (λ kept. kept.items ≡ with_line is_held contact id.now lines.items) }
{
    if is_held || is_wanted_in(lines.as_slice(), contact, id) {
        return Ok(lines);
    }
    let mut kept = lines;
    kept.push(WantedLine { contact, id: *id })?;
    Ok(kept)
}

// The lines after an output to the contact.
fn want_out(
    alloc: Global,
    lines: Vec<WantedLine>,
    contact: u8,
    what: &Out,
) -> Result<Vec<WantedLine>, AllocError>
    ensures { IfOk result (λ kept. kept.items ≡ want_then_out contact lines.items what.now) }
{
    match what {
        Out::Requests(ids) => without_requested(alloc, lines.as_slice(), contact, ids.as_slice()),
        _ => Ok(lines),
    }
}

// The lines after the entry that stands behind these batches and entries.
fn want_one(
    alloc: Global,
    earlier: &[Batch],
    before: &[Entry],
    entry: &Entry,
    lines: Vec<WantedLine>,
) -> Result<Vec<WantedLine>, AllocError>
    ensures { IfOk result (λ kept. kept.items ≡ want_then (after_all (facts earlier.now) before.now)
        lines.items entry.now) }
{
    match entry {
        Entry::Author(message) | Entry::Arrive(_, message) | Entry::Kept(_, message) => {
            without_held(alloc, lines.as_slice(), &id_of(message))
        }
        Entry::Offered(session, id) => {
            let is_held = is_held_before(earlier, before, id);
            with_offered(
                lines,
                is_held,
                contact_before(earlier, before, *session),
                id,
            )
        }
        Entry::Out(session, _, what) => {
            want_out(
                alloc,
                lines,
                contact_before(earlier, before, *session),
                what,
            )
        }
        Entry::Want(contact, id) => {
            let is_held = is_held_before(earlier, before, id);
            with_offered(lines, is_held, *contact, id)
        }
        _ => Ok(lines),
    }
}

// The lines after the entries of the batch that stands behind these.
fn want_batch(
    alloc: Global,
    earlier: &[Batch],
    entries: &[Entry],
    start: Vec<WantedLine>,
) -> Result<Vec<WantedLine>, AllocError>
    requires { WantsAre (facts earlier.now) start.items }
    ensures { IfOk result (λ lines. WantsAre (after_all (facts earlier.now) entries.now)
        lines.items) }
{
    let mut lines = start;
    for (k, entry) in entries.iter().enumerate() {
        lines = want_one(alloc, earlier, &entries[..k], entry, lines)?;
    }
    Ok(lines)
}

pub(crate) fn wanted_lines(alloc: Global, j: &[Batch]) -> Result<Vec<WantedLine>, AllocError>
    ensures { IfOk result (λ lines. WantsAre (facts j.now) lines.items) }
{
    let mut lines = Vec::new(alloc);
    for (i, batch) in j.iter().enumerate() {
        lines = want_batch(alloc, &j[..i], batch.entries(), lines)?;
    }
    Ok(lines)
}
