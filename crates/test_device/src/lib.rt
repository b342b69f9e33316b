//! A store with its disk and its clients as one value, for a program that measures a store:
//! its invariant is what a call on the one needs of the others. A seed is the same in each run.
#![tactic(auto)]

mod batches;
mod device;
mod fault;

pub use device::Device;
pub use fault::AddFault;
