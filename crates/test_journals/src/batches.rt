// Payloads that were written by hand.

use crate::checks::{made, same};
use entry_codec::{Format, NoNames, batch_len, read_batch, write_batch};
use std::alloc::Global;
use std::process::Abort;
use sync_rules::{Batch, Entry};

// How many entries the bytes are read as; none where they are no batch.
fn count_in(rt: &impl Abort, alloc: Global, bytes: &[u8]) -> usize {
    match made(rt, read_batch(alloc, Format::Whole, &NoNames, bytes)) {
        Some(batch) => batch.entries().len(),
        None => 0,
    }
}

#[test]
fn payloads_are_read(rt: HostRuntime) {
    let cases: &[(&[u8], usize)] = &[
        (b"\x01\x00", 1),
        (b"\x01\x00\x01\x07", 2),
        (b"", 0),
        (b"\x01", 0),
        (b"\x01\x00\x63", 0),
        (b"\x63\x00", 0),
        (b"\x01\x00\x05\x00\x00\x00\x00", 0),
    ];
    for (bytes, want) in cases {
        let count = count_in(&rt, rt.alloc(), bytes);
        same(&rt, &(*bytes, count), &(*bytes, *want));
    }
}

#[test]
fn a_batch_is_written(rt: HostRuntime) {
    let alloc = rt.alloc();
    let entries = made(&rt, vec![in alloc; Entry::Contact(0), Entry::Contact(7)]);
    let batch = made(&rt, Batch::new(entries));
    same(&rt, &batch_len(Format::Whole, &batch), &4);
    let mut written = Vec::new(alloc);
    made(
        &rt,
        write_batch(Format::Whole, &NoNames, &batch, &mut written),
    );
    same(&rt, &written.as_slice(), &b"\x01\x00\x01\x07".as_slice());
}
