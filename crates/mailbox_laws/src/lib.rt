//! The law of mailbox files: two people who are never online together exchange files of records.
//! A file may be lost, come twice, or come in another order; what a device holds, delivers, refuses
//! and knows of its contact at the end is a function of what it held before and of the set of
//! records that came. The definitions stand in `specs/`, over journals alone.
#![tactic(auto)]

pub mod laws;
