//! What holds of all spellings. Each function's clause is the law; none does anything.
ghost use Rattle.entry_codec.specs.Laws.{AllowedNames, NoEntryBeginsAnother, PayloadsFitFrames};
ghost use Rattle.entry_codec.specs.Laws.{ShortBatchesAreNotLonger, ShortIsNotLonger};
ghost use Rattle.entry_codec.specs.Laws.{SpellingsAreShort, EntriesReadBack};
ghost use Rattle.entry_codec.specs.StandingLaws.{AllowedAddOne, AllowedMayBeWritten, AllowedTakeOne};
ghost use Rattle.entry_codec.specs.StandingLaws.{BatchesReadBack, JournalsStand, PayloadsSpellOnce};
ghost use Rattle.entry_codec.specs.StandingLaws.{LegalHasNames, StandingIsLegal};

use sync_ids::message_ids_are_whole;
use sync_rules::laws::allows_is_allowed;

/// Whatever `read_entry` finds where an entry is spelled in format 1 is that entry, whatever
/// follows, and so it is with `read_short` and format 2.
pub fn spellings_read_back()
    ensures { EntriesReadBack }
{}

/// In each format no entry's bytes begin another's, and bytes spell one entry at most.
pub fn none_begins_another()
    ensures { NoEntryBeginsAnother }
{}

/// Every spelling of format 1 has 2 to `MAX_SPELLING` bytes.
pub fn spellings_are_short()
    ensures { SpellingsAreShort }
{}

/// A spelling of format 2 has 2 bytes or more, and is never longer than it would be with whole ids,
/// as those of format 1 are.
pub fn short_is_not_longer()
    ensures { ShortIsNotLonger }
{}

/// The spellings of a batch in format 2 are together never longer than with whole ids.
pub fn short_batches_are_not_longer()
    ensures { ShortBatchesAreNotLonger }
{}

/// A batch that may follow a journal names as held only messages that are held before it, so it can
/// be written in format 2.
pub fn allowed_names()
    ensures { AllowedNames }
{}

/// A batch that may follow a journal has 2 to `MAX_BATCH_LEN` bytes in each format, fewer than a
/// frame may have.
pub fn payloads_fit_frames()
    ensures { PayloadsFitFrames }
{}

/// Whatever batch is read of the payload of a batch is that batch.
pub fn batches_read_back()
    ensures { BatchesReadBack }
{}

/// A batch has one payload, and what is read of one is within its limits.
pub fn payloads_spell_once()
    ensures { PayloadsSpellOnce }
{}

/// In a batch that may follow a journal each session has a latency, and each row may be stated.
pub fn allowed_may_be_written()
    ensures { AllowedMayBeWritten }
{}

/// A batch that may follow a journal adds one message at most, and one session at most to the list
/// of those that began.
pub fn allowed_add_one()
    ensures { AllowedAddOne }
{}

/// A batch that may follow a journal takes one record at most on a session.
pub fn allowed_take_one()
    ensures { AllowedTakeOne }
{}

/// Files with the frames of a legal journal, and room for what settling may add, stand for that
/// journal.
pub fn journals_stand()
    ensures { JournalsStand }
{
    allows_is_allowed();
    message_ids_are_whole();
}

/// The ids of the messages that are held behind a legal journal are distinct and whole, so they are
/// names where they are few enough.
pub fn legal_has_names()
    ensures { LegalHasNames }
{
    message_ids_are_whole();
}

/// A journal that files stand for is legal.
pub fn standing_is_legal()
    ensures { StandingIsLegal }
{
    allows_is_allowed();
}
