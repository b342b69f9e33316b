//! Whether a batch may follow a journal, as one test over whatever keeps the journal: a view of it,
//! and a few things more that are asked of it (`JournalView`).
//!
//! - `allow`: the test, by the kind of the batch's first entry.
//! - `given`: whether some record is taken as entries.
//! - `known_id`: the id of the message that a batch brings, computed once for the test and the
//!   taking.
#![tactic(auto)]

mod allow;
mod given;
mod journal_view;
mod known_id;

pub use allow::allows;
pub use journal_view::JournalView;
pub use known_id::{id_brought, id_known};
