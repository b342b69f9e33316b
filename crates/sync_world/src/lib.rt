//! Worlds of several devices, moved step by step: messages are written, devices are linked and make
//! turns, records in flight arrive, are lost, repeated or swapped, links are cut, clocks are set,
//! disks stop at any call. A world makes the same calls on nodes and stores as a program does.
//!
//! - `world`: the world and its steps.
//! - `stage`: its devices and links, and what each step does to these.
//! - `laws`: the laws of the crates below that proofs rest on.
//! - `naming`: what devices, groups and messages of a world are called.
//! - `posting`: the body of a post.
//! - `turning`: a device's turn, and rounds of turns.
//! - `playing`, `player`, `asking`: scripts played, the world with what is to be printed of it, and what
//!   the words ask for.
#![tactic(auto)]

mod asking;
mod laws;
mod naming;
mod player;
mod playing;
mod posting;
mod stage;
mod turning;
mod world;

pub use playing::replay;
pub use world::World;
pub use world_devices::StepFault;
