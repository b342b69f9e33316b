//! A legal journal on a disk: at every moment the two files stand for a legal journal, and the
//! store has its facts.
#![tactic(auto)]

mod begin;
mod committing;
mod compacting;
mod extending;
mod fault;
mod formats;
mod frames;
mod group;
pub mod laws;
mod load;
mod migrating;
mod refusals;
mod settling;
mod store;
mod view;
pub mod waiting;

pub use fault::{InitFault, LoadFault, PostFault, StoreFault};
pub use store::Store;
