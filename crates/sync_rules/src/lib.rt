//! The rules of a node of the Bramble Synchronisation Protocol over its journal: what an entry
//! says, what a journal makes known, when a message may be delivered, what is sent, and which batch
//! may follow which journal. The definitions stand in `specs/`, and their laws in the modules
//! `laws` and `growth`.
//!
//! - `entries`: the entries of a journal and its batches; `comparing` tells whether two are equal.
//! - `limits`: the limits that a legal journal keeps.
//! - `states`: what is said of a message, how a journal began, and why a command is refused.
//! - `answers`: what a client says of a group's messages.
//! - `view`: what a session may ask of a store.
//! - `lookups`, `steps`: the facts and the next step of a list of batches, by plain scans.
//! - `laws`, `growth`: the laws, each the contract of a function that does nothing.
#![tactic(auto)]

mod answers;
mod comparing;
mod entries;
pub mod growth;
pub mod laws;
mod limits;
pub mod lookups;
mod states;
mod steps;
mod view;

pub use answers::{Clients, DepFault, DepList, Judgement};
pub use comparing::{ids_named, same_entries, same_entry, same_out};
pub use entries::{Batch, EmptyBatch, Entry, Level, Mode, Out, Session, Tried};
pub use limits::{
    MAX_CONTACTS, MAX_DEPS, MAX_GROUPS, MAX_ROWS, MAX_SESSIONS, MAX_STEPS, MAX_TRIES, MAX_WANTED,
};
pub use lookups::{fate_in, id_of, level_in};
pub use states::{Fate, Origin, Refused, Start};
pub use steps::next_step_in;
pub use view::View;
