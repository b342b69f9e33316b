//! Settling a list of batches, without a disk.
ghost use Rattle.plain_rules.specs.Settling.{AddsSettling, with_last};
ghost use Rattle.std.specs.Prelude.{◌≡◌, ◌+◌, ◌<◌, ◌≤◌, ◌∷◌, ◌++◌, [], length, Some, OnOk, OnErr};
ghost use Rattle.sync_rules.specs.Facts.{facts};
ghost use Rattle.sync_rules.specs.Hearing.{SettlesJournal};
ghost use Rattle.sync_rules.specs.Legal.{Legal};
ghost use Rattle.sync_rules.specs.Steps.{IsSettled, next};

use std::alloc::{AllocError, Global};
use sync_rules::{Batch, Clients, Entry, MAX_STEPS, next_step_in};

// A batch of this one entry at the end of the journal; after an error the journal is as before.
pub(crate) fn push_one(alloc: Global, j: &mut Vec<Batch>, entry: Entry) -> Result<(), AllocError>
    ensures ok { OnOk result (j.new.items ≡ j.old.items ++ (entry ∷ []) ∷ []) }
    ensures err { OnErr result (j.new.items ≡ j.old.items) }
{
    let mut entries = Vec::new(alloc);
    entries.push(entry)?;
    push_batch(j, entries)
}

// A batch of these entries, of which there is one at least, at the end of the journal; after an
// error it is as before.
fn push_batch(j: &mut Vec<Batch>, entries: Vec<Entry>) -> Result<(), AllocError>
    requires { 1 ≤ length entries.items }
    ensures ok { OnOk result (j.new.items ≡ j.old.items ++ entries.items ∷ []) }
    ensures err { OnErr result (j.new.items ≡ j.old.items) }
{
    match Batch::new(entries) {
        Ok(batch) => {
            j.push(batch)?;
            Ok(())
        }
        Err(_) => unreachable!(),
    }
}

// One more entry at the end of the last batch; after an error the journal is as before.
fn push_to_last(j: &mut Vec<Batch>, entry: Entry) -> Result<(), AllocError>
    requires { 0 < length j.old.items }
    ensures ok { OnOk result (j.new.items ≡ with_last j.old.items entry) }
    ensures err { OnErr result (j.new.items ≡ j.old.items) }
{
    let last = j.len() - 1;
    let batch = &mut j[last];
    batch.push(entry)
}

// A settling batch at the end of the journal that begins with this step and goes on while a step is
// left, to MAX_STEPS entries. It fails only for want of memory, and then the steps made before
// stand.
fn settle_batch<C: Clients>(
    alloc: Global,
    j: &mut Vec<Batch>,
    clients: &C,
    first: Entry,
) -> Result<(), AllocError>
    requires { next (C.meaning clients.now) (facts j.old.items) ≡ Some first }
    ensures settles { SettlesJournal (C.meaning clients.now) j.old.items j.new.items }
    ensures added { OnOk result (AddsSettling (C.meaning clients.now) MAX_STEPS j.old.items
        j.new.items) }
{
    push_one(alloc, j, first)?;
    for count in 1..MAX_STEPS {
        let Some(step) = next_step_in(alloc, j.as_slice(), clients)? else {
            return Ok(());
        };
        push_to_last(j, step)?;
    }
    Ok(())
}

/// Settles a list of batches: it is extended by settling batches until it has no next step. Each
/// batch is filled to MAX_STEPS entries while a step is left. It fails only for want of memory, and
/// then the steps made before stand.
pub fn settle_in<C: Clients>(
    alloc: Global,
    j: &mut Vec<Batch>,
    clients: &C,
) -> Result<(), AllocError>
    ensures settles { SettlesJournal (C.meaning clients.now) j.old.items j.new.items }
    ensures legal { Legal (C.meaning clients.now) j.old.items
        → Legal (C.meaning clients.now) j.new.items }
    ensures settled { OnOk result (IsSettled (C.meaning clients.now) (facts j.new.items)) }
{
    'steps: while let Some(step) = next_step_in(alloc, j.as_slice(), clients)? {
        settle_batch(alloc, j, clients, step)?;
    }
    Ok(())
}
