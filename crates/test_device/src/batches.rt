//! Batches that a store is to add.
ghost use Rattle.std.specs.Prelude.{◌≡◌};
ghost use Rattle.sync_rules.specs.Allows.{is_account_kind, is_settling_kind};

use sync_rules::Entry;

/// Whether entries begin with a step, as a settling batch does.
pub(crate) fn begins_with_step(entries: &[Entry]) -> bool
    ensures { result ≡ is_settling_kind entries.now }
{
    matches!(
        entries.first(),
        Some(Entry::Judged(_) | Entry::Deliver(_) | Entry::Invalid(_))
    )
}

/// Whether entries begin with one that stands in a brief account alone.
pub(crate) fn is_of_account(entries: &[Entry]) -> bool
    ensures { result ≡ is_account_kind entries.now }
{
    matches!(
        entries.first(),
        Some(Entry::Brief(_) | Entry::Kept(_, _) | Entry::Tried(_) | Entry::Want(_, _))
    )
}
