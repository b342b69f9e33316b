// An answer without the record that it gives.

use crate::checks::made;
use record_grammar::{Found, Reason, read_one};
use std::alloc::Global;
use std::process::Abort;

#[derive(Clone, Copy, Debug, PartialEq)]
pub enum Seen {
    One,
    Skipped(u8),
    More,
    Bad(Reason),
}

/// What `read_one` answers, and how many bytes it used.
pub fn answer_to(rt: &impl Abort, alloc: Global, bytes: &[u8]) -> (Seen, usize) {
    match made(rt, read_one(alloc, bytes)) {
        Found::One(_, used) => (Seen::One, used),
        Found::Skipped(type_byte, used) => (Seen::Skipped(type_byte), used),
        Found::More => (Seen::More, 0),
        Found::Bad(reason) => (Seen::Bad(reason), 0),
    }
}
