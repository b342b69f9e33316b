//! The laws of the crates below that proofs of this one rest on.
ghost use Rattle.journal_migration.specs.Cited.{MigrationLaws};

use entry_codec::laws as codec;
use sync_rules::laws as rules;

// Its clause names them. It does nothing.
pub(crate) fn cite_laws()
    ensures { MigrationLaws }
{
    codec::journals_stand();
    codec::legal_has_names();
    rules::allows_is_allowed();
}
