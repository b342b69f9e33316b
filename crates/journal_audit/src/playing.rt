//! Batches that are tested, and taken where they may follow.
ghost use Rattle.std.specs.Prelude.{◌≡◌, true, false, IfOk, OnOk};
ghost use Rattle.sync_rules.specs.Allows.{is_rows_kind};
ghost use Rattle.session_core.specs.Known.{IsOfAll};
ghost use Rattle.sync_rules.specs.Clients.{Meaning};
ghost use Rattle.sync_rules.specs.Facts.{after_all};
ghost use Rattle.sync_rules.specs.Allows.{allows, is_opening, is_rows, is_settled, is_settling};
ghost use Rattle.sync_rules.specs.Allows.{is_settling_kind};
ghost use Rattle.journal_audit.specs.Changes.{BecomesKnown, MayTakeEntry};
ghost use Rattle.journal_audit.specs.Plain.{IsPlainSound, KnowsMeanings, facts_of};
ghost use Rattle.journal_audit.specs.Playing.{all_go, AllFit, goes, IsOfLegal, PlaysEntries};

use crate::facts::PlainFacts;
use crate::restoring::suits_rows;
use crate::settling::next_step;
use crate::view::FactsView;
use batch_tests::{allows, id_brought};
use std::alloc::{AllocError, Global};
use sync_ids::MessageId;
use sync_rules::laws::allows_is_allowed;
use sync_rules::{Batch, Clients, Entry, MAX_ROWS, MAX_STEPS, Start, same_entry};

// Whether a batch begins with a step.
fn begins_settling(entries: &[Entry]) -> bool
    ensures { result ≡ is_settling_kind entries.now }
{
    match entries.first() {
        Some(Entry::Judged(_) | Entry::Deliver(_) | Entry::Invalid(_)) => true,
        _ => false,
    }
}

// Whether a batch begins with a row or a wanted id.
fn begins_rows(entries: &[Entry]) -> bool
    ensures { result ≡ is_rows_kind entries.now }
{
    match entries.first() {
        Some(Entry::Tried(_) | Entry::Want(_, _)) => true,
        _ => false,
    }
}

// Whether a journal is a brief account so far.
fn is_opening(start: Start) -> bool
    ensures { result ≡ is_opening start }
{
    match start {
        Start::Opening => true,
        Start::Empty | Start::Going => false,
    }
}

/// Whether no step is open.
pub(crate) fn is_settled(facts: &PlainFacts) -> bool
    requires { IsPlainSound facts.now }
    ensures { (clients : Meaning) → KnowsMeanings clients facts.now → result ≡ is_settled clients
        (facts_of facts.now) }
{
    next_step(facts).is_none()
}

// Whether an entry is a row or a wanted id that suits, or else the next step.
fn goes(facts: &PlainFacts, rows: bool, entry: &Entry) -> bool
    requires { IsPlainSound facts.now }
    ensures test { (clients : Meaning) → KnowsMeanings clients facts.now → result ≡ goes clients rows
        (facts_of facts.now) entry.now }
{
    if rows {
        return suits_rows(facts, entry);
    }
    match next_step(facts) {
        Some(step) => same_entry(&step, entry),
        None => false,
    }
}

// Tests entries one after the other, rows and wanted ids or else steps, and takes each.
fn play<C: Clients>(
    facts: &mut PlainFacts,
    alloc: Global,
    clients: &C,
    rows: bool,
    entries: Vec<Entry>,
) -> Result<bool, AllocError>
    requires sound { IsPlainSound facts.old }
    requires knows { KnowsMeanings (C.meaning clients.now) facts.old }
    ensures { IfOk result (PlaysEntries (C.meaning clients.now) facts.old facts.new
        (all_go (C.meaning clients.now) rows (facts_of facts.old) entries.items) entries.items) }
{
    for entry in entries {
        if !goes(facts, rows, &entry) {
            return Ok(false);
        }
        facts.take(alloc, clients, &None, entry)?;
    }
    Ok(true)
}

// Takes entries that fit.
fn take_all<C: Clients>(
    facts: &mut PlainFacts,
    alloc: Global,
    clients: &C,
    known: &Option<MessageId>,
    entries: Vec<Entry>,
) -> Result<(), AllocError>
    requires sound { IsPlainSound facts.old }
    requires knows { KnowsMeanings (C.meaning clients.now) facts.old }
    requires named { IsOfAll known.now entries.items }
    requires fit { AllFit (facts_of facts.old) entries.items }
    ensures { OnOk result (BecomesKnown (C.meaning clients.now) facts.new
        (after_all (facts_of facts.old) entries.items)) }
{
    for entry in entries {
        facts.take(alloc, clients, known, entry)?;
    }
    Ok(())
}

// A settling batch.
fn admit_steps<C: Clients>(
    facts: &mut PlainFacts,
    alloc: Global,
    clients: &C,
    entries: Vec<Entry>,
) -> Result<bool, AllocError>
    requires sound { IsPlainSound facts.old }
    requires knows { KnowsMeanings (C.meaning clients.now) facts.old }
    ensures { IfOk result (PlaysEntries (C.meaning clients.now) facts.old facts.new
        (is_settling (C.meaning clients.now) (facts_of facts.old) entries.items) entries.items) }
{
    if entries.len() > MAX_STEPS {
        return Ok(false);
    }
    play(facts, alloc, clients, false, entries)
}

// A batch of rows and wanted ids.
fn admit_rows<C: Clients>(
    facts: &mut PlainFacts,
    alloc: Global,
    clients: &C,
    entries: Vec<Entry>,
) -> Result<bool, AllocError>
    requires sound { IsPlainSound facts.old }
    requires knows { KnowsMeanings (C.meaning clients.now) facts.old }
    ensures { IfOk result (PlaysEntries (C.meaning clients.now) facts.old facts.new
        (is_rows (C.meaning clients.now) (facts_of facts.old) entries.items) entries.items) }
{
    if !is_opening(facts.start) || !is_settled(facts) {
        return Ok(false);
    }
    if entries.len() > MAX_ROWS {
        return Ok(false);
    }
    play(facts, alloc, clients, true, entries)
}

// Whether another batch may follow.
fn allows_other<C: Clients>(
    facts: &PlainFacts,
    alloc: Global,
    clients: &C,
    batch: &Batch,
    id: Option<MessageId>,
) -> Result<bool, AllocError>
    requires sound { IsPlainSound facts.now }
    requires knows { KnowsMeanings (C.meaning clients.now) facts.now }
    requires kind { is_settling_kind batch.now ≡ false }
    requires plain { is_rows_kind batch.now ≡ false }
    requires named { IsOfAll id batch.now }
    ensures { IfOk result (λ yes. yes ≡ allows (C.meaning clients.now) (facts_of facts.now)
        batch.now) }
{
    let settled = is_settled(facts);
    let view = FactsView::over(facts);
    allows(alloc, &view, clients, settled, batch, id)
}

// Another batch, once what may go for it was brought.
fn admit_brought<C: Clients>(
    facts: &mut PlainFacts,
    alloc: Global,
    clients: &C,
    batch: Batch,
) -> Result<bool, AllocError>
    requires legal { IsOfLegal (C.meaning clients.now) facts.old }
    requires kind { is_settling_kind batch ≡ false }
    requires plain { is_rows_kind batch ≡ false }
    ensures { IfOk result (PlaysEntries (C.meaning clients.now) facts.old facts.new
        (allows (C.meaning clients.now) (facts_of facts.old) batch) batch) }
{
    let id = id_brought(batch.entries());
    if !allows_other(facts, alloc, clients, &batch, id)? {
        return Ok(false);
    }
    allows_is_allowed();
    take_all(facts, alloc, clients, &id, batch.into_entries())?;
    Ok(true)
}

// Another batch.
fn admit_other<C: Clients>(
    facts: &mut PlainFacts,
    alloc: Global,
    clients: &C,
    batch: Batch,
) -> Result<bool, AllocError>
    requires legal { IsOfLegal (C.meaning clients.now) facts.old }
    requires kind { is_settling_kind batch ≡ false }
    requires plain { is_rows_kind batch ≡ false }
    ensures { IfOk result (PlaysEntries (C.meaning clients.now) facts.old facts.new
        (allows (C.meaning clients.now) (facts_of facts.old) batch) batch) }
{
    facts.bring_for(alloc, batch.entries())?;
    admit_brought(facts, alloc, clients, batch)
}

/// Tests whether a batch may follow the journal, and takes it where it may. It fails only for want
/// of memory; then, and after another answer, nothing is said of the facts.
pub(crate) fn admit<C: Clients>(
    facts: &mut PlainFacts,
    alloc: Global,
    clients: &C,
    batch: Batch,
) -> Result<bool, AllocError>
    requires { IsOfLegal (C.meaning clients.now) facts.old }
    ensures { IfOk result (PlaysEntries (C.meaning clients.now) facts.old facts.new
        (allows (C.meaning clients.now) (facts_of facts.old) batch) batch) }
{
    if begins_settling(batch.entries()) {
        return admit_steps(facts, alloc, clients, batch.into_entries());
    }
    if begins_rows(batch.entries()) {
        return admit_rows(facts, alloc, clients, batch.into_entries());
    }
    admit_other(facts, alloc, clients, batch)
}
