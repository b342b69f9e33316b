//! A journal of format 1 written anew in format 2, into the other file: at every moment the two files
//! stand for the same journal. Of two journals the one with the greater generation counts, so the
//! copy, which has the next one, takes over at the moment at which its header's gate opens.
#![tactic(auto)]

mod copying;
mod fault;
mod first_names;
mod laws;
mod migrating;
mod naming;
mod spelling;

pub use fault::MigrationFault;
pub use first_names::FirstNames;
pub use migrating::{begin, migrate, take_back};
