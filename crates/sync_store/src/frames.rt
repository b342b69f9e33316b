//! Batches within frames.
ghost use Rattle.std.specs.Prelude.{◌≡◌, ◌+◌, ◌*◌, ◌<◌, ◌≤◌, ◌++◌, ◌∷◌, [], length, vec_capacity};
ghost use Rattle.std.specs.Prelude.{vec_len, IfOk};
ghost use Rattle.std.specs.List.{AllByRecursion};
ghost use Rattle.entry_codec.specs.Naming.{IsNamed, held_bytes};
ghost use Rattle.entry_codec.specs.Payloads.{payload_len, spellings};
ghost use Rattle.entry_codec.specs.Spelling.{EntryNames, IsEntry, IsId, MayBeWritten, spelling_in};
ghost use Rattle.entry_codec.specs.Standing.{step_len};
ghost use Rattle.frame_journal.specs.Append.{framed_of};
ghost use Rattle.sync_rules.specs.EntryTests.{IsSettlingEntry};

use crate::formats::steps_len;
use entry_codec::{Format, Names, batch_len, write_batch};
use outside::MAX_JOURNAL;
use std::alloc::{AllocError, Global};
use sync_ids::MessageId;
use sync_rules::{Batch, Entry, MAX_STEPS};

/// The length of the longest frame of a settling batch, but for its gate: `MAX_STEPS` entries of
/// 33 bytes, their length and a closed gate.
pub(crate) const MOST_FRAMED: usize = 8453;

/// A batch's payload behind its length, and a closed gate.
pub(crate) fn frame_batch<N: Names>(
    alloc: Global,
    format: Format,
    names: &N,
    batch: &Batch,
) -> Result<Vec<u8>, AllocError>
    requires written { AllByRecursion MayBeWritten batch.now }
    requires named { AllByRecursion (EntryNames (IsNamed format (N.named names.now))) batch.now }
    requires few { payload_len format batch.now ≤ MAX_JOURNAL }
    requires len { length (spellings format (N.named names.now) batch.now) ≡ payload_len format
        batch.now }
    ensures framed { IfOk result (λ v. v.items ≡ framed_of
        (spellings format (N.named names.now) batch.now)) }
    ensures within { IfOk result (λ v. AllByRecursion IsEntry batch.now) }
{
    let len = batch_len(format, batch);
    let mut framed = Vec::with_capacity(alloc, len + 5)?;
    framed.extend_from_slice(&(len as u32).to_be_bytes())?;
    write_batch(format, names, batch, &mut framed)?;
    framed.push(0)?;
    Ok(framed)
}

/// The same of settling entries, into a buffer that has room for them.
pub(crate) fn frame_steps<N: Names>(format: Format, names: &N, entries: &[Entry], to: &mut Vec<u8>)
    requires steps { AllByRecursion IsSettlingEntry entries.now }
    requires named { AllByRecursion (EntryNames (IsNamed format (N.named names.now))) entries.now }
    requires few { length entries.now ≤ MAX_STEPS }
    requires empty { to.old.items ≡ [] }
    requires room { MOST_FRAMED ≤ vec_capacity to.old }
    ensures framed { to.new.items ≡ framed_of (spellings format (N.named names.now) entries.now) }
    ensures within { AllByRecursion IsEntry entries.now }
    ensures len { length (spellings format (N.named names.now) entries.now)
        ≡ step_len format * length entries.now }
{
    let len = steps_len(format, entries.len()) as u32;
    to.extend_from_slice(&len.to_be_bytes()).unwrap();
    write_steps(format, names, entries, to);
    to.push(0).unwrap();
}

fn write_steps<N: Names>(format: Format, names: &N, entries: &[Entry], to: &mut Vec<u8>)
    requires steps { AllByRecursion IsSettlingEntry entries.now }
    requires named { AllByRecursion (EntryNames (IsNamed format (N.named names.now))) entries.now }
    requires few { length entries.now ≤ MAX_STEPS }
    requires room { vec_len to.old + step_len format * length entries.now ≤ vec_capacity to.old }
    ensures written { to.new.items
        ≡ to.old.items ++ spellings format (N.named names.now) entries.now }
    ensures within { AllByRecursion IsEntry entries.now }
    ensures len { length (spellings format (N.named names.now) entries.now)
        ≡ step_len format * length entries.now }
    ensures capacity { vec_capacity to.old ≤ vec_capacity to.new }
{
    'steps: for entry in entries {
        write_step(format, names, entry, to);
    }
}

#[tactic(auto, unfolding(entry_codec::specs::Spelling::spelling_in))]
fn write_step<N: Names>(format: Format, names: &N, entry: &Entry, to: &mut Vec<u8>)
    requires step { IsSettlingEntry entry.now }
    requires named { EntryNames (IsNamed format (N.named names.now)) entry.now }
    requires room { vec_len to.old + step_len format ≤ vec_capacity to.old }
    ensures written { to.new.items
        ≡ to.old.items ++ spelling_in format (N.named names.now) entry.now }
    ensures within { IsEntry entry.now }
    ensures len { length (spelling_in format (N.named names.now) entry.now) ≡ step_len format }
    ensures capacity { vec_capacity to.old ≤ vec_capacity to.new }
{
    let (tag, id) = match entry {
        Entry::Judged(id) => (8, id),
        Entry::Deliver(id) => (9, id),
        Entry::Invalid(id) => (10, id),
        _ => unreachable!(),
    };
    to.push(tag).unwrap();
    write_held(format, names, id, to);
}

// Writes the id of a held message as the format names it.
fn write_held<N: Names>(format: Format, names: &N, id: &MessageId, to: &mut Vec<u8>)
    requires named { IsNamed format (N.named names.now) id.now }
    requires room { vec_len to.old + step_len format ≤ vec_capacity to.old + 1 }
    ensures written { to.new.items ≡ to.old.items ++ held_bytes format (N.named names.now) id.now }
    ensures whole { IsId id.now }
    ensures len { length (held_bytes format (N.named names.now) id.now) + 1 ≡ step_len format }
    ensures capacity { vec_capacity to.old ≤ vec_capacity to.new }
{
    let whole = id.as_bytes();
    match format {
        Format::Whole => to.extend_from_slice(whole).unwrap(),
        Format::Short => {
            let number = names.number(id).unwrap();
            to.extend_from_slice(&number.to_be_bytes()).unwrap();
        }
    }
}
