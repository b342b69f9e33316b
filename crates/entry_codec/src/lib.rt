//! Entries of a journal as bytes: in each of two formats an entry has one spelling, and no spelling
//! begins another. A held message is named by its id in format 1, by its number in format 2. The
//! kinds that stand in a brief account alone are spelled in format 2 alone.
#![tactic(auto)]

mod batches;
mod front;
pub mod laws;
mod lengths;
mod naming;
mod reading;
mod stop;
mod values;
mod writing;

pub use batches::{batch_len, read_batch, write_batch};
pub use lengths::{
    MAX_BATCH_LEN, MAX_SPELLING, entry_len, group_len, kept_len, short_len, spelled_len, step_bytes,
};
pub use naming::{Format, Names, NoNames, format_of};
pub use reading::{EntryFound, read_entry, read_short};
pub use writing::{write_entry, write_group, write_kept, write_short};
