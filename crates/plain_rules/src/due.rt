//! Which held messages are owed, sent and offered to a contact.
ghost use Rattle.plain_rules.specs.Lines.{line_ids, is_line_offered, is_line_owed};
ghost use Rattle.plain_rules.specs.Lines.{is_line_sendable, is_line_sent, is_line_sooner};
ghost use Rattle.std.specs.Prelude.{◌≡◌, IfOk};
ghost use Rattle.sync_rules.specs.Facts.{facts, is_level_shared, level_at};
ghost use Rattle.sync_rules.specs.Sessions.{first_id, goes_sooner, is_ripe};

use crate::lines::HeldLine;
use crate::rows::{PlainRow, is_in, offered, row_of};
use std::alloc::{AllocError, Global};
use sync_ids::{GroupId, MessageId};
use sync_rules::lookups::is_delivered_in;
use sync_rules::{Batch, Level, Mode, level_in};

fn is_shared_in(j: &[Batch], contact: u8, group: &GroupId) -> bool
    ensures { result ≡ is_level_shared (level_at (facts j.now).levels contact group.now) }
{
    match level_in(j, contact, group) {
        Level::Shared => true,
        _ => false,
    }
}

fn is_sendable_line(j: &[Batch], shared: &[MessageId], contact: u8, line: &HeldLine) -> bool
    ensures { result ≡ is_line_sendable (facts j.now) shared.now contact line.now }
{
    is_delivered_in(j, &line.id)
        && is_shared_in(j, contact, &line.group)
        && !row_of(j, contact, &line.id).seen
        && (line.is_author || is_in(shared, &line.id))
}

fn is_ripe_row(mode: Mode, now: u64, row: PlainRow) -> bool
    ensures { result ≡ is_ripe mode now row }
{
    match mode {
        Mode::Interactive => row.asked,
        Mode::Batch => row.expiry <= now,
    }
}

fn is_sent_line(
    j: &[Batch],
    shared: &[MessageId],
    contact: u8,
    mode: Mode,
    now: u64,
    line: &HeldLine,
) -> bool
    ensures { result ≡ is_line_sent (facts j.now) shared.now contact mode now line.now }
{
    is_sendable_line(j, shared, contact, line)
        && is_ripe_row(mode, now, row_of(j, contact, &line.id))
}

fn is_offered_line(
    j: &[Batch],
    shared: &[MessageId],
    contact: u8,
    now: u64,
    line: &HeldLine,
) -> bool
    ensures { result ≡ is_line_offered (facts j.now) shared.now contact now line.now }
{
    let row = row_of(j, contact, &line.id);
    is_sendable_line(j, shared, contact, line) && !row.asked && row.expiry <= now
}

fn goes_sooner(row: PlainRow, latency: u32, now: u64) -> bool
    ensures { result ≡ goes_sooner latency now row }
{
    !row.asked && offered(row, now, latency).expiry < row.expiry
}

fn is_sooner_line(
    j: &[Batch],
    shared: &[MessageId],
    contact: u8,
    latency: u32,
    now: u64,
    line: &HeldLine,
) -> bool
    ensures { result ≡ is_line_sooner (facts j.now) shared.now contact latency now line.now }
{
    is_sendable_line(j, shared, contact, line)
        && goes_sooner(row_of(j, contact, &line.id), latency, now)
}

pub(crate) fn owed_ids(
    alloc: Global,
    j: &[Batch],
    lines: &[HeldLine],
    contact: u8,
) -> Result<Vec<MessageId>, AllocError>
    ensures { IfOk result (λ ids. ids.items ≡ line_ids (is_line_owed (facts j.now) contact)
        lines.now) }
{
    let mut ids = Vec::new(alloc);
    for line in lines {
        if row_of(j, contact, &line.id).owed {
            ids.push(line.id)?;
        }
    }
    Ok(ids)
}

pub(crate) fn offered_ids(
    alloc: Global,
    j: &[Batch],
    shared: &[MessageId],
    lines: &[HeldLine],
    contact: u8,
    now: u64,
) -> Result<Vec<MessageId>, AllocError>
    ensures { IfOk result
        (λ ids. ids.items ≡ line_ids (is_line_offered (facts j.now) shared.now contact now)
        lines.now) }
{
    let mut ids = Vec::new(alloc);
    for line in lines {
        if is_offered_line(j, shared, contact, now, line) {
            ids.push(line.id)?;
        }
    }
    Ok(ids)
}

pub(crate) fn first_sent(
    j: &[Batch],
    shared: &[MessageId],
    lines: &[HeldLine],
    contact: u8,
    mode: Mode,
    now: u64,
) -> Option<MessageId>
    ensures { result ≡ first_id (line_ids (is_line_sent (facts j.now) shared.now contact mode now)
        lines.now) }
{
    for line in lines {
        if is_sent_line(j, shared, contact, mode, now, line) {
            return Some(line.id);
        }
    }
    None
}

pub(crate) fn sooner_ids(
    alloc: Global,
    j: &[Batch],
    shared: &[MessageId],
    lines: &[HeldLine],
    contact: u8,
    latency: u32,
    now: u64,
) -> Result<Vec<MessageId>, AllocError>
    ensures { IfOk result
        (λ ids. ids.items ≡ line_ids (is_line_sooner (facts j.now) shared.now contact latency now)
        lines.now) }
{
    let mut ids = Vec::new(alloc);
    for line in lines {
        if is_sooner_line(j, shared, contact, latency, now, line) {
            ids.push(line.id)?;
        }
    }
    Ok(ids)
}

pub(crate) fn first_sooner(
    j: &[Batch],
    shared: &[MessageId],
    lines: &[HeldLine],
    contact: u8,
    latency: u32,
    now: u64,
) -> Option<MessageId>
    ensures { result ≡ first_id (line_ids (is_line_sooner (facts j.now) shared.now contact latency
        now) lines.now) }
{
    for line in lines {
        if is_sooner_line(j, shared, contact, latency, now, line) {
            return Some(line.id);
        }
    }
    None
}
