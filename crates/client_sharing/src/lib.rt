//! The client of `sharing` groups, in which two people say which groups they join and leave, beside
//! the three bundled clients; and the levels that follow from what both said.
#![tactic(auto)]

mod agreement;
mod bodies;
mod clients;

pub use agreement::{Said, Target, targets};
pub use bodies::{Saying, is_sharing, read_saying, sayings_are_spelled, write_saying};
pub use clients::SharingBundle;
