//! Batches as the payloads of frames: the spellings of their entries, one behind the other.
ghost use Rattle.std.specs.Prelude.{◌≡◌, ◌++◌, ◌-◌, ◌^◌, min, IfOk, IfSome, OnErr, OnOk};
ghost use Rattle.std.specs.List.{AllByRecursion};
ghost use Rattle.entry_codec.specs.Naming.{IsNamed};
ghost use Rattle.entry_codec.specs.Payloads.{batch_in, payload_len, spellings};
ghost use Rattle.entry_codec.specs.Spelling.{AddsTo, EntryNames, IsEntry, MayBeWritten};

use crate::front::Front;
use crate::lengths::spelled_len;
use crate::naming::{Format, Names};
use crate::reading::read_tagged;
use crate::stop::Stop;
use crate::writing::append_entry;
use std::alloc::{AllocError, Global};
use sync_rules::{Batch, Entry};

/// Reads a payload in this format, where these are the names of the messages held before its
/// batch: the batch, or `None` exactly where it is not a list of one or more spellings of entries
/// and nothing else. It fails only for want of memory.
pub fn read_batch<N: Names>(
    alloc: Global,
    format: Format,
    names: &N,
    bytes: &[u8],
) -> Result<Option<Batch>, AllocError>
    ensures exact { IfOk result (λ read. read ≡ batch_in format (N.named names.now) bytes.now) }
    ensures spelled { IfOk result (λ read. IfSome read
        (λ batch. bytes.now ≡ spellings format (N.named names.now) batch)) }
    ensures within { IfOk result (λ read. IfSome read (AllByRecursion IsEntry)) }
{
    names.show_names();
    let mut front = Front { rest: bytes };
    let mut entries = Vec::new(alloc);
    'entries: while !front.rest.is_empty() {
        match read_tagged(alloc, format, names, &mut front) {
            Ok(entry) => entries.push(entry)?,
            Err(Stop::BadEntry) => return Ok(None),
            Err(Stop::Memory) => return Err(AllocError),
        }
    }
    match Batch::new(entries) {
        Ok(batch) => Ok(Some(batch)),
        Err(_) => Ok(None),
    }
}

// After want of memory a part of the payload may stand.
fn write_entries<N: Names>(
    format: Format,
    names: &N,
    entries: &[Entry],
    to: &mut Vec<u8>,
) -> Result<(), AllocError>
    requires written { AllByRecursion MayBeWritten entries.now }
    requires named { AllByRecursion (EntryNames (IsNamed format (N.named names.now))) entries.now }
    ensures ok { OnOk result
        (to.new.items ≡ to.old.items ++ spellings format (N.named names.now) entries.now) }
    ensures within { OnOk result (AllByRecursion IsEntry entries.now) }
    ensures err { OnErr result (AddsTo to.old.items to.new.items) }
{
    'entries: for entry in entries {
        append_entry(format, names, entry, to)?;
    }
    Ok(())
}

/// Appends a batch's payload in this format, where these are the names of the messages held before
/// it. A session's latency is at least 1, a row may be stated, and in format 2 each message that the
/// batch names as held has a name. Format 1 has no payload for the entries that stand in a brief
/// account alone: what is written of them there is not read again. It fails only for want of
/// memory, and then leaves the bytes as they were.
pub fn write_batch<N: Names>(
    format: Format,
    names: &N,
    batch: &Batch,
    to: &mut Vec<u8>,
) -> Result<(), AllocError>
    requires written { AllByRecursion MayBeWritten batch.now }
    requires named { AllByRecursion (EntryNames (IsNamed format (N.named names.now))) batch.now }
    ensures ok { OnOk result
        (to.new.items ≡ to.old.items ++ spellings format (N.named names.now) batch.now) }
    ensures within { OnOk result (AllByRecursion IsEntry batch.now) }
    ensures err { OnErr result (to.new.items ≡ to.old.items) }
{
    let len = to.len();
    let written = write_entries(format, names, batch.entries(), to);
    if written.is_err() {
        to.truncate(len);
    }
    written
}

/// How many bytes a batch's payload has in this format; the number stands still at 2^64 - 1. It
/// takes no memory.
pub fn batch_len(format: Format, batch: &Batch) -> usize
    ensures { result ≡ min (payload_len format batch.now) (2 ^ 64 - 1) }
{
    let mut len = 0usize;
    'entries: for entry in batch.entries() {
        len = len.saturating_add(spelled_len(format, entry));
    }
    len
}
