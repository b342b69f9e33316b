//! A journal of format 2 replaced by its brief account, which is written into the other file: at
//! every moment the two files stand for the journal or for its brief account. Of two journals the
//! one with the greater generation counts, so the account, which has the next one, takes over at the
//! moment at which its header's gate opens.
#![tactic(auto)]

mod compacting;
mod fault;
mod items;
mod laws;
mod page;
mod paging;
mod plan;
mod writing;

pub use compacting::compact;
pub use fault::CompactionFault;
