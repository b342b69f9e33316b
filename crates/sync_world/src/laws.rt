//! The laws of the crates below that proofs of this crate rest on.
ghost use Rattle.sync_world.specs.Cited.{RecordLaws, WorldLaws};
ghost use Rattle.world_devices.specs.Cited.{SentGrows};

use record_grammar::{fronts_have_fronts, spelled_records_are_streams, spellings_read_back};
use sync_ids::message_ids_are_whole;
use sync_rules::laws::sent_grows;
use world_laws::{moves, steps_keep};

/// What spellings are read as, how long the ids of messages are, and that what a session sends only
/// grows.
pub(crate) fn cite_records()
    ensures { RecordLaws }
{
    spellings_read_back();
    spelled_records_are_streams();
    fronts_have_fronts();
    message_ids_are_whole();
    sent_grows();
}

/// What steps of a world of several devices keep, and that moves are steps.
pub(crate) fn cite_worlds()
    ensures { WorldLaws }
{
    steps_keep();
    moves();
}

/// The laws of steps and of records, and that what a session sends only grows.
pub(crate) fn cite_laws()
    ensures records { RecordLaws }
    ensures worlds { WorldLaws }
    ensures grows { SentGrows }
{
    cite_records();
    cite_worlds();
    sent_grows();
}
