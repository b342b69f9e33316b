//! The steps that are left after a batch.
ghost use Rattle.std.specs.Prelude.{◌≡◌, false};
ghost use Rattle.std.specs.List.{list_any};
ghost use Rattle.sync_rules.specs.Clients.{Meaning};
ghost use Rattle.sync_rules.specs.Facts.{after_all};
ghost use Rattle.sync_rules.specs.Legal.{Allowed};
ghost use Rattle.sync_rules.specs.Allows.{is_account_kind, is_settling_kind};
ghost use Rattle.sync_rules.specs.Left.{left_of};
ghost use Rattle.journal_state.specs.Bringing.{brings_one};

use crate::state::State;
use sync_rules::{Batch, Entry};

/// The steps of a message: it is judged, and then delivered or invalid.
const MESSAGE_STEPS: u64 = 2;

/// Whether an entry brings a message that was not held.
fn brings_one(entry: &Entry) -> bool
    ensures { result ≡ brings_one entry.now }
{
    match entry {
        Entry::Author(_) | Entry::Arrive(_, _) | Entry::Kept(_, _) => true,
        _ => false,
    }
}

/// Whether some entry brings a message that was not held.
fn brings_message(entries: &[Entry]) -> bool
    ensures { result ≡ list_any brings_one entries.now }
{
    for entry in entries {
        if brings_one(entry) {
            return true;
        }
    }
    false
}

impl State {
    /// The steps that settling may yet make after a batch that may follow the journal, and that is
    /// neither a settling batch nor of a brief account's own kinds.
    pub fn left_with(&self, batch: &Batch) -> u64
        requires allowed { (clients : Meaning) × Allowed clients self.now.facts batch.now }
        requires kind { is_settling_kind batch.now ≡ false }
        requires plain { is_account_kind batch.now ≡ false }
        ensures { result ≡ left_of (after_all self.now.facts batch.now) }
    {
        self.show_sound();
        let left = self.left();
        if brings_message(batch.entries()) {
            left + MESSAGE_STEPS
        } else {
            left
        }
    }
}
