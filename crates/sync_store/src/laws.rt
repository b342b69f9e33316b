//! What holds of every store and disk. Each function's clause is the law; none does anything.
ghost use Rattle.sync_store.specs.Cited.{StoreLaws};
ghost use Rattle.sync_store.specs.Fitting.{ImagesStand};

use entry_codec::laws as codec;
use sync_rules::laws as rules;

/// Whatever a crash leaves of a disk that fits a store stands for the store's journal.
pub fn images_stand()
    ensures { ImagesStand }
{
    cite_laws();
}

// The laws of the crates below that proofs of this crate rest on.
pub(crate) fn cite_laws()
    ensures { StoreLaws }
{
    codec::journals_stand();
    codec::payloads_fit_frames();
    codec::allowed_names();
    codec::allowed_may_be_written();
    codec::allowed_add_one();
    codec::allowed_take_one();
    rules::allows_is_allowed();
    brief_account::keeps();
}
