use crate::checks::{disk_with, kept, same};
use outside::{Disk, Failed, MemDisk, Pick};
use std::process::Abort;

// A call on file 0.
#[derive(Clone, Copy)]
enum Op {
    Write(u64, &'static [u8]),
    Cut(u64),
    Sync,
}

// Makes the call.
fn make(rt: &impl Abort, disk: &mut MemDisk, op: Op) -> Result<(), Failed> {
    let len = disk.file(0).len() as u64;
    match op {
        Op::Write(at, bytes) if at <= len => disk.write_at(0, at, bytes),
        Op::Cut(to) if to <= len => disk.cut(0, to),
        Op::Sync => disk.sync(0),
        _ => panic!(rt; "past the end"),
    }
}

// Compares a pick of the file.
fn compare_pick(rt: &impl Abort, disk: &MemDisk, pick: Pick, expected: &[u8]) {
    let image = kept(rt, disk.image(pick));
    same(rt, &image.file(0), &expected);
}

// Compares the file and each pick of it.
fn compare(rt: &impl Abort, disk: &MemDisk, expected: &[&[u8]; 5]) {
    let [file, old, new, zero, ones] = expected;
    same(rt, &disk.file(0), file);
    compare_pick(rt, disk, Pick::Old, old);
    compare_pick(rt, disk, Pick::New, new);
    compare_pick(rt, disk, Pick::Zero, zero);
    compare_pick(rt, disk, Pick::Ones, ones);
}

// A call, whether it is to fail, and what the file and each pick of it have then.
static IMAGES: [(Op, bool, [&[u8]; 5]); 7] = [
    (
        Op::Write(2, b"XY"),
        false,
        [
            b"abXYef",
            b"abcdef",
            b"abXYef",
            b"ab\0\0ef",
            b"ab\x01\x01ef",
        ],
    ),
    (
        Op::Cut(4),
        false,
        [
            b"abXY",
            b"abcdef",
            b"abXY",
            b"ab\0\0\0\0",
            b"ab\x01\x01\x01\x01",
        ],
    ),
    (
        Op::Sync,
        true,
        [
            b"abXY",
            b"abcdef",
            b"abXY",
            b"ab\0\0\0\0",
            b"ab\x01\x01\x01\x01",
        ],
    ),
    (
        Op::Sync,
        false,
        [b"abXY", b"abXY", b"abXY", b"abXY", b"abXY"],
    ),
    (
        Op::Write(4, b"Z"),
        true,
        [b"abXY", b"abXY", b"abXYZ", b"abXY\0", b"abXY\x01"],
    ),
    (
        Op::Cut(1),
        true,
        [b"abXY", b"abXY", b"a", b"a\0\0\0\0", b"a\x01\x01\x01\x01"],
    ),
    (
        Op::Sync,
        false,
        [b"abXY", b"abXY", b"abXY", b"abXY", b"abXY"],
    ),
];

// Makes a call, which is to fail or not, and compares.
fn step(rt: &impl Abort, disk: &mut MemDisk, row: &(Op, bool, [&[u8]; 5])) {
    let (op, fails, expected) = row;
    if *fails {
        kept(rt, disk.fail_at(disk.calls()));
    }
    same(rt, &make(rt, disk, *op).is_err(), fails);
    compare(rt, disk, expected);
}

#[test]
fn images(rt: HostRuntime) {
    let mut disk = disk_with(&rt, b"abcdef");
    for row in &IMAGES {
        step(&rt, &mut disk, row);
    }
    same(&rt, &disk.starved(), &0);
}

// A caller that knows its disk by the trait alone.
pub fn use_disk<D: Disk>(disk: &mut D) -> Result<u64, Failed> {
    let mut buf = [9u8; 4];
    let n = disk.read_at(1, 0, &mut buf)?;
    disk.write_at(1, 0, &buf[..n])?;
    disk.cut(1, 0)?;
    disk.sync(1)?;
    disk.len(1)
}

#[test]
fn by_the_trait(rt: HostRuntime) {
    for failing in 0..6u64 {
        let mut disk = disk_with(&rt, b"");
        kept(&rt, disk.fail_at(failing));
        let expected = if failing < 5 { Err(Failed) } else { Ok(0) };
        same(&rt, &(failing, use_disk(&mut disk)), &(failing, expected));
    }
}

// Makes each call once on file 0, and says which were made.
fn call_each<D: Disk>(disk: &mut D) -> [bool; 4] {
    let mut buf = [9u8; 4];
    let read = disk.read_at(0, 0, &mut buf).is_ok();
    let written = disk.write_at(0, 0, b"XY").is_ok();
    let synced = disk.sync(0).is_ok();
    [read, written, synced, disk.len(0).is_ok()]
}

static STOPPED: [&[u8]; 5] = [b"XYc", b"abc", b"XYc", b"\0\0c", b"\x01\x01c"];

#[test]
fn stops(rt: HostRuntime) {
    let mut disk = disk_with(&rt, b"abc");
    disk.stop_at(2);
    let made = call_each(&mut disk);
    same(&rt, &made, &[true, true, false, false]);
    compare(&rt, &disk, &STOPPED);
    same(&rt, &disk.calls(), &4);
    disk.fail_none();
    same(&rt, &call_each(&mut disk), &[true; 4]);
}
