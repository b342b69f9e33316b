//! A payload of format 1 spelled anew in format 2.
ghost use Rattle.std.specs.Prelude.{◌≡◌, ◌≤◌, IfOk, IsErrOf, length, take};
ghost use Rattle.std.specs.List.{AllByRecursion};
ghost use Rattle.outside.specs.declared.limits.TheConstants.{MAX_FRAME};
ghost use Rattle.frame_journal.specs.Append.{framed_of};
ghost use Rattle.entry_codec.specs.Naming.{IsNamed};
ghost use Rattle.entry_codec.specs.Payloads.{names_of, payload_len, spellings};
ghost use Rattle.entry_codec.specs.Spelling.{EntryNames, MayBeWritten};
ghost use Rattle.entry_codec.specs.declared.naming.Format.TheVariants as kind;
ghost use Rattle.journal_migration.specs.Copying.{IsRespelled};

use crate::MigrationFault;
use crate::first_names::FirstNames;
use crate::naming::{are_named, count_brought};
use entry_codec::{Format, Names, batch_len, read_batch, write_batch};
use journal_state::State;
use std::alloc::{AllocError, Global};
use sync_rules::Batch;

// A payload behind its length and before a closed gate, and how many messages its batch brings.
#[derive(Drop)]
pub(crate) struct Respelled {
    pub(crate) framed: Vec<u8>,
    pub(crate) brought: u32,
}

// Spells a payload anew, where the state held so many messages before its batch.
pub(crate) fn respell(
    alloc: Global,
    state: &State,
    count: u32,
    payload: &[u8],
) -> Result<Respelled, MigrationFault>
    requires { length payload.now ≤ MAX_FRAME }
    ensures spelled { IfOk result (λ r. IsRespelled (take count (names_of state.now.facts))
        payload.now r.framed.items r.brought) }
    ensures memory { IsErrOf result MigrationFault.DiskFault → ⊥ }
{
    let names = FirstNames { state, count };
    let Some(batch) = read_batch(alloc, Format::Whole, &names, payload)? else {
        return Err(MigrationFault::Memory);
    };
    if !are_named(&names, batch.entries()) {
        return Err(MigrationFault::Memory);
    }
    let framed = frame(alloc, &names, &batch)?;
    Ok(Respelled {
        framed,
        brought: count_brought(batch.entries()),
    })
}

// A batch's payload in format 2 behind its length, and a closed gate.
fn frame<N: Names>(alloc: Global, names: &N, batch: &Batch) -> Result<Vec<u8>, AllocError>
    requires written { AllByRecursion MayBeWritten batch.now }
    requires named { AllByRecursion (EntryNames (IsNamed kind.Short (N.named names.now)))
        batch.now }
    requires few { payload_len kind.Short batch.now ≤ MAX_FRAME }
    requires len { length (spellings kind.Short (N.named names.now) batch.now)
        ≡ payload_len kind.Short batch.now }
    ensures { IfOk result (λ v. v.items ≡ framed_of
        (spellings kind.Short (N.named names.now) batch.now)) }
{
    let len = batch_len(Format::Short, batch);
    let mut framed = Vec::with_capacity(alloc, len + 5)?;
    framed.extend_from_slice(&(len as u32).to_be_bytes())?;
    write_batch(Format::Short, names, batch, &mut framed)?;
    framed.push(0)?;
    Ok(framed)
}
