use crate::checks::{kept, same};
use outside::{Failed, InputFault, MemSink, MemSource, read_input, write_all};
use std::process::Abort;

// How many bytes there are, the limit, the call that fails, what a read answers then, and how many
// bytes are kept.
type Row = (usize, u32, u64, Result<(), InputFault>, usize);

const NONE: u64 = u64::MAX;

static LIMITS: [Row; 12] = [
    (0, 4, NONE, Ok(()), 0),
    (4, 4, NONE, Ok(()), 4),
    (5, 4, NONE, Err(InputFault::TooMuch), 4),
    (9, 4, NONE, Err(InputFault::TooMuch), 4),
    (1, 0, NONE, Err(InputFault::TooMuch), 0),
    (150_000, 150_000, NONE, Ok(()), 150_000),
    (150_001, 150_000, NONE, Err(InputFault::TooMuch), 150_000),
    (150_000, 200_000, 0, Err(InputFault::ReadFault), 0),
    (150_000, 200_000, 1, Err(InputFault::ReadFault), 65_536),
    (150_000, 200_000, 2, Err(InputFault::ReadFault), 131_072),
    (150_000, 200_000, 3, Err(InputFault::ReadFault), 150_000),
    (150_000, 200_000, 4, Ok(()), 150_000),
];

fn read_some<R: Abort + AllocGlobal>(rt: &R, number: usize, row: &Row) {
    let (bytes, limit, failing, answer, len) = row;
    let bytes = kept(rt, vec![in rt.alloc(); 7; *bytes]);
    let failing = kept(rt, vec![in rt.alloc(); *failing]);
    let mut source = MemSource::new(bytes, failing);
    let mut to = Vec::new(rt.alloc());
    let got = read_input(&mut source, u64::from(*limit), &mut to);
    same(rt, &(number, got, to.len()), &(number, *answer, *len));
}

#[test]
fn limits(rt: HostRuntime) {
    for (number, row) in LIMITS.iter().enumerate() {
        read_some(&rt, number, row);
    }
}

// Writes three pieces, of which this one fails.
fn write_three(rt: &impl Abort, sink: &mut MemSink, failing: u64) {
    for piece in 0..3u8 {
        let fails = u64::from(piece) == failing;
        let expected = if fails { Err(Failed) } else { Ok(()) };
        same(
            rt,
            &(piece, write_all(sink, &[piece, 9])),
            &(piece, expected),
        );
    }
}

#[test]
fn sinks(rt: HostRuntime) {
    for failing in 0..3u64 {
        let numbers = kept(&rt, vec![in rt.alloc(); failing]);
        let mut sink = MemSink::new(rt.alloc(), numbers);
        write_three(&rt, &mut sink, failing);
        same(&rt, &(sink.bytes().len(), sink.starved()), &(4, 0));
    }
}
