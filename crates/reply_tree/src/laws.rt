//! What is true of every walk.
ghost use Rattle.reply_tree.specs.Walks.{HasOneWalk, HasParentsFirst, IsSortedWalk};

/// The items have one walk. It does nothing.
pub fn walks_are_one()
    ensures { HasOneWalk }
{}

/// The walk is all items, sorted by their paths. It does nothing.
pub fn walk_is_sorted()
    ensures { IsSortedWalk }
{}

/// In the walk each item stands behind what it replies to. It does nothing.
pub fn parents_come_first()
    ensures { HasParentsFirst }
{}
