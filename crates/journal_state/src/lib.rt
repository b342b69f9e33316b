//! The state of a journal without a disk: all that is asked of a journal, kept so that no answer
//! needs a walk over its entries.
//!
//! - What it is: `state` (its tables, and the look-ups that only read one), `start` (how the journal
//!   began), `messages` (the held messages by id), `sessions`, `graph` (the waiting graph, with the
//!   steps that are left).
//! - What is asked of it: `groups` (groups, and what is served), `fates` (what became of each
//!   message, and the steps left), `view` (what a session asks), `left` (the steps left once a
//!   batch is there).
//! - Whether a batch may follow: `allow`, by the test of `batch_tests`.
//! - A batch is taken: `reserve` takes its memory, and `take` then goes entry by entry through
//!   `add` (a contact, a group, a session, a record, the beginning of a brief account), `hold` (a
//!   message), `levels` (a group's level), `marks` (what is noted of a message for a contact) and
//!   `want` (what is wanted from a contact).
//! - A step is made: `steps`, by `judge` and `deliver`.
//! - A batch that was read from a file is tested and taken, or its steps are made: `admit`, with
//!   `restore` for the rows and wanted ids of a brief account.
//! - What a brief account tells of it: `account`.
#![tactic(auto)]

mod account;
mod add;
mod admit;
mod allow;
mod deliver;
mod fates;
mod graph;
mod groups;
mod hold;
mod judge;
mod left;
mod levels;
mod marks;
mod messages;
mod reserve;
mod restore;
mod sessions;
mod start;
mod state;
mod steps;
mod take;
mod view;
mod want;

pub use account::Told;
pub use state::State;
