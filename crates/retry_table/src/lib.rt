//! What is owed, wanted, to be sent and to be offered to each contact, found by descent and never
//! by a walk.
#![tactic(auto)]

mod all_rows;
mod blocks;
mod classes;
mod contact_rows;
mod places;
mod queues;
mod retry;
mod rows;
mod wanted;

pub use retry::Retry;
