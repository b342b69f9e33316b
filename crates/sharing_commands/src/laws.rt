//! What is true of the levels that two people agree on. The function does nothing; its clause is
//! the law.
ghost use Rattle.sharing_commands.specs.Agreement.{TargetsSetLevels};

/// The batches that targets ask for leave the contact's level of each group that is then known as
/// that of its last target, or as before where it has none, and every other level as before.
pub fn targets_set_levels()
    ensures { TargetsSetLevels }
{}
