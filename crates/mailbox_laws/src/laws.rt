//! The law of mailbox files, as the contract of a function that does nothing, over every journal
//! and over every meaning of the clients.
ghost use Rattle.mailbox_laws.specs.Order.{SetsDecide};

/// Sets: two lists of files with the same set of records leave one effect, where they are read by
/// journals of one effect with the same groups and levels, and no two messages among them have one
/// id. So neither the order of the files nor how often each comes changes anything.
pub fn sets()
    ensures { SetsDecide }
{}
