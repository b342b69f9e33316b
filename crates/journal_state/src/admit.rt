//! A batch that was read from a file is tested and taken.
ghost use Rattle.std.specs.Prelude.{◌≡◌, true, false, IfOk, OnErr};
ghost use Rattle.sync_rules.specs.Allows.{is_rows_kind};
ghost use Rattle.sync_rules.specs.Facts.{after, after_all};
ghost use Rattle.sync_rules.specs.Steps.{next};
ghost use Rattle.sync_rules.specs.Allows.{allows, is_settling_kind, is_some_of};
ghost use Rattle.sync_rules.specs.Allows.{same_entry, settles};
ghost use Rattle.journal_state.specs.Stepping.{PlaysFront};
ghost use Rattle.journal_state.specs.Taking.{HasNextNumbers};
ghost use Rattle.journal_state.specs.Whole.{KnowsJudgements};

use crate::state::State;
use crate::steps::same_step;
use batch_tests::id_brought;
use std::alloc::{AllocError, Global};
use sync_rules::laws::allows_is_allowed;
use sync_rules::{Batch, Clients, Entry, MAX_STEPS};

/// Whether a batch begins with a step.
fn begins_settling(entries: &[Entry]) -> bool
    ensures { result ≡ is_settling_kind entries.now }
{
    match entries.first() {
        Some(Entry::Judged(_) | Entry::Deliver(_) | Entry::Invalid(_)) => true,
        _ => false,
    }
}

/// Whether a batch begins with a row or a wanted id.
fn begins_rows(entries: &[Entry]) -> bool
    ensures { result ≡ is_rows_kind entries.now }
{
    match entries.first() {
        Some(Entry::Tried(_) | Entry::Want(_, _)) => true,
        _ => false,
    }
}

impl State {
    /// Makes the next step where it is this entry, and answers whether it is; `false` also where no
    /// step is open. It fails only for want of memory. Where it doesn't make the step, the facts
    /// are as before.
    fn play_one<C: Clients>(
        &mut self,
        alloc: Global,
        clients: &C,
        entry: &Entry,
    ) -> Result<bool, AllocError>
        requires { KnowsJudgements (C.meaning clients.now) self.old }
        ensures answer { IfOk result
            (λ yes. yes ≡ is_some_of same_entry (next (C.meaning clients.now) self.old.facts)
            entry.now) }
        ensures step { IfOk result (λ yes. yes ≡ true
            → next (C.meaning clients.now) self.old.facts ≡ Some entry.now) }
        ensures taken { IfOk result (λ yes. yes ≡ true
            → self.new.facts ≡ after self.old.facts entry.now) }
        ensures refused { IfOk result (λ yes. yes ≡ false → self.new.facts ≡ self.old.facts) }
        ensures err { OnErr result (self.new.facts ≡ self.old.facts) }
        ensures knows { KnowsJudgements (C.meaning clients.now) self.new }
    {
        let Some(step) = self.open_step() else {
            return Ok(false);
        };
        let open = self.entry_of(step);
        if !same_step(&open, entry) {
            return Ok(false);
        }
        self.make(alloc, clients, step, &open)?;
        Ok(true)
    }

    /// Makes steps as long as they are these entries, and answers whether all were. It fails only
    /// for want of memory.
    fn play<C: Clients>(
        &mut self,
        alloc: Global,
        clients: &C,
        entries: &[Entry],
    ) -> Result<bool, AllocError>
        requires { KnowsJudgements (C.meaning clients.now) self.old }
        ensures answer { IfOk result (λ yes. yes ≡ settles (C.meaning clients.now) self.old.facts
            entries.now) }
        ensures taken { IfOk result (λ yes. yes ≡ true
            → self.new.facts ≡ after_all self.old.facts entries.now) }
        ensures front { PlaysFront (C.meaning clients.now) self.old.facts self.new.facts
            entries.now }
        ensures knows { KnowsJudgements (C.meaning clients.now) self.new }
    {
        for entry in entries {
            if !self.play_one(alloc, clients, entry)? {
                return Ok(false);
            }
        }
        Ok(true)
    }

    /// Tests a batch that is neither a settling batch nor one of rows and wanted ids, and takes it
    /// where it may follow.
    fn admit_other<C: Clients>(
        &mut self,
        alloc: Global,
        clients: &C,
        batch: Batch,
    ) -> Result<bool, AllocError>
        requires knows { KnowsJudgements (C.meaning clients.now) self.old }
        requires kind { is_settling_kind batch ≡ false }
        requires plain { is_rows_kind batch ≡ false }
        requires numbers { HasNextNumbers self.old.facts }
        ensures answer { IfOk result (λ yes. yes ≡ allows (C.meaning clients.now) self.old.facts
            batch) }
        ensures taken { IfOk result (λ yes. yes ≡ true
            → self.new.facts ≡ after_all self.old.facts batch) }
        ensures refused { IfOk result (λ yes. yes ≡ false → self.new.facts ≡ self.old.facts) }
        ensures err { OnErr result (self.new.facts ≡ self.old.facts) }
        ensures knows { KnowsJudgements (C.meaning clients.now) self.new }
    {
        self.bring_for(batch.entries());
        let id = id_brought(batch.entries());
        self.announce(batch.entries(), &id)?;
        if !self.allows_batch(alloc, clients, &batch, id)? {
            return Ok(false);
        }
        self.reserve(&batch)?;
        allows_is_allowed();
        self.take_batch(batch, id);
        Ok(true)
    }

    /// Tests whether a batch that was read from a file may follow the journal, and takes it where
    /// it may. After another answer, and where memory was wanting, the state stands for the journal
    /// as before with a front of the batch, each entry of it the journal's next step, or a row or
    /// wanted id that suits; with none for a batch that is neither a settling batch nor one of rows
    /// and wanted ids. It fails only for want of memory.
    pub fn admit<C: Clients>(
        &mut self,
        alloc: Global,
        clients: &C,
        batch: Batch,
    ) -> Result<bool, AllocError>
        requires knows { KnowsJudgements (C.meaning clients.now) self.old }
        requires numbers { HasNextNumbers self.old.facts }
        ensures answer { IfOk result (λ yes. yes ≡ allows (C.meaning clients.now) self.old.facts
            batch) }
        ensures taken { IfOk result (λ yes. yes ≡ true
            → self.new.facts ≡ after_all self.old.facts batch) }
        ensures refused { IfOk result (λ yes. yes ≡ false
            → PlaysFront (C.meaning clients.now) self.old.facts self.new.facts batch) }
        ensures err { OnErr result (PlaysFront (C.meaning clients.now) self.old.facts
            self.new.facts batch) }
        ensures knows { KnowsJudgements (C.meaning clients.now) self.new }
    {
        let entries = batch.entries();
        if begins_rows(entries) {
            return self.admit_rows(entries);
        }
        if !begins_settling(entries) {
            return self.admit_other(alloc, clients, batch);
        }
        if entries.len() > MAX_STEPS {
            return Ok(false);
        }
        self.play(alloc, clients, entries)
    }
}
