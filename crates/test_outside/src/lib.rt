//! The objects of the outside, in memory and of the machine, and frames on a disk.
#![tactic(auto)]

#[cfg(test)]
mod checks;
#[cfg(test)]
mod disks;
#[cfg(test)]
mod files;
#[cfg(test)]
mod frames;
#[cfg(test)]
mod hosts;
#[cfg(test)]
mod links;
#[cfg(test)]
mod real;
#[cfg(test)]
mod silent;
#[cfg(test)]
mod streams;
