//! BLAKE2b (RFC 7693), and the digest of several parts that Bramble's identifiers are made of.
#![tactic(auto)]

mod block;
mod hasher;
mod parts;

pub use hasher::{Blake2b, KeyTooLong};
pub use parts::{Parts, parts_have_one_reading};
