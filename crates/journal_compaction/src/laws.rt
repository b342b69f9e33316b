//! The laws of the crates below that proofs of this one rest on.
ghost use Rattle.journal_compaction.specs.Cited.{CompactionLaws};

use brief_account::{by_facts, keeps};
use entry_codec::laws as codec;

// Its clause names them. It does nothing.
pub(crate) fn cite_laws()
    ensures { CompactionLaws }
{
    codec::journals_stand();
    codec::allowed_names();
    keeps();
    by_facts();
}
