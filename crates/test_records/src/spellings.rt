// Each type read and spelled again. The borders stand in the crate of vectors.

use crate::answers::{Seen, answer_to};
use crate::checks::{made, same};
use record_grammar::{Found, Front, Reason, encode, front_of, read_one};
use std::alloc::Global;
use std::process::Abort;
use sync_ids::Record;

fn spelled(rt: &impl Abort, alloc: Global, record: &Record) -> Vec<u8> {
    let mut bytes = Vec::new(alloc);
    made(rt, encode(record, &mut bytes));
    bytes
}

// Bytes that are one record and no more are read as it, and spelled so again.
fn check_spelling(rt: &impl Abort, alloc: Global, bytes: &[u8]) {
    match made(rt, read_one(alloc, bytes)) {
        Found::One(record, used) => {
            let again = spelled(rt, alloc, &record);
            same(rt, &(used, again.as_slice()), &(bytes.len(), bytes));
        }
        _ => panic!(rt; "no record"),
    }
}

#[test]
fn each_type(rt: HostRuntime) {
    let records: &[&[u8]] = &[
        b"\x00\x01\x00\x29GGGGGGGGGGGGGGGGGGGGGGGGGGGGGGGG\x00\x00\x00\x00\x00\x00\x00\x00x",
        b"\x00\x00\x00\x40AAAAAAAAAAAAAAAAAAAAAAAAAAAAAAAABBBBBBBBBBBBBBBBBBBBBBBBBBBBBBBB",
        b"\x00\x02\x00\x20AAAAAAAAAAAAAAAAAAAAAAAAAAAAAAAA",
        b"\x00\x03\x00\x20AAAAAAAAAAAAAAAAAAAAAAAAAAAAAAAA",
        b"\x00\x04\x00\x01\x00",
        b"\x00\x05\x00\x10abcdefghijklmnop",
    ];
    for bytes in records {
        check_spelling(&rt, rt.alloc(), bytes);
    }
    let skipped = answer_to(&rt, rt.alloc(), b"\x00\x09\x00\x02\xaa\xbb");
    same(&rt, &skipped, &(Seen::Skipped(9), 6));
    assert!(rt; front_of(b"\x01") == Front::Bad(Reason::WrongVersion));
}
