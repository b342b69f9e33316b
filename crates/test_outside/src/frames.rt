use crate::checks::{disk_with, kept, same};
use frame_journal::{FrameFault, Journal, StartFault};
use outside::Untold;
use std::process::Abort;

// The header of a journal of generation 1, and the open gate of its first frame.
const FRONT: [u8; 15] = [1, b'B', b'S', b'P', b'J', 1, 0, 0, 0, 0, 0, 0, 0, 1, 1];

// What reading the whole of a disk ends with.
#[derive(Clone, Copy, Debug, PartialEq, Eq)]
enum Ending {
    NoStore,
    Damaged(u8, u64),
    Frames(u64),
    Fault,
}

fn ending_of<R: Abort + AllocGlobal>(rt: &R, bytes: &[u8]) -> Ending {
    let mut disk = Untold::new(disk_with(rt, bytes));
    let mut to = Vec::new(rt.alloc());
    match Journal::start(&mut disk) {
        Ok(mut journal) => ending_behind(&mut disk, &mut journal, &mut to),
        Err(StartFault::NoStore) => Ending::NoStore,
        Err(StartFault::Damaged(place)) => Ending::Damaged(place.file, place.at),
        Err(StartFault::DiskFault) => Ending::Fault,
    }
}

fn ending_behind(disk: &mut Untold, journal: &mut Journal, to: &mut Vec<u8>) -> Ending {
    for frames in 0..u64::MAX {
        match journal.next_frame(disk, to) {
            Ok(true) => {}
            Ok(false) => return Ending::Frames(frames),
            Err(FrameFault::Damaged(place)) => return Ending::Damaged(place.file, place.at),
            Err(_) => return Ending::Fault,
        }
    }
    Ending::Fault
}

// A journal whose one payload is so many zeros.
fn zeros<R: Abort + AllocGlobal>(rt: &R, size: u32) -> Vec<u8> {
    let mut bytes = kept(rt, Vec::from_slice(rt.alloc(), &FRONT));
    kept(rt, bytes.extend_from_slice(&size.to_be_bytes()));
    kept(rt, bytes.resize(19 + size as usize + 1, 0));
    bytes
}

static LENGTHS: [(u32, Ending); 3] = [
    (0, Ending::Damaged(0, 14)),
    (65_536, Ending::Frames(1)),
    (65_537, Ending::Damaged(0, 14)),
];

// A frame has a byte at least, and 65,536 at most.
#[test]
fn lengths(rt: HostRuntime) {
    for (size, expected) in &LENGTHS {
        let bytes = zeros(&rt, *size);
        let ending = ending_of(&rt, bytes.as_slice());
        same(&rt, &(*size, ending), &(*size, *expected));
    }
}
