//! A device of a world of several: a host in memory and the node that runs on it, which makes the
//! same calls as a program does. Its disk may be made to stop at any call; the device then crashes
//! to an image of its files and loads its store anew.
//!
//! - `device`: the device and its calls.
//! - `starting`: a store loaded and settled, with a node over it.
//! - `stop`: where a disk is to stop, and what came of a call.
#![tactic(auto)]

mod device;
mod starting;
mod stop;

pub use device::Device;
pub use stop::{Ran, StepFault, Stop};
