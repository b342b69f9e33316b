//! A world of many posts. A node that looks at all its messages again for each one takes far longer
//! than a test may.

use outside::{MemRandom, MemSink, MemSource};
use std::alloc::{AllocError, Global};
use std::hash::RandomState;
use std::test::Fail;
use sync_world::replay;

const WANTED: &str = "device 0 held 20000 delivered 20000 invalid 0 pending 0 unknown 0
device 1 held 20000 delivered 20000 invalid 0 pending 0 unknown 0
";

#[test]
fn gen_20000_in_time(rt: HostRuntime) -> Result<(), Fail> {
    let alloc = rt.alloc();
    let hasher = RandomState::new(&MemRandom(0))?;
    let words = words_of(alloc, "gen 7 20000")?;
    let mut input = MemSource::new(Vec::new(alloc), Vec::new(alloc));
    let mut out = MemSink::new(alloc, Vec::new(alloc));
    let mut err = MemSink::new(alloc, Vec::new(alloc));
    let status = replay(
        alloc,
        hasher,
        words.as_slice(),
        &mut input,
        &mut out,
        &mut err,
    );
    assert_eq!(rt; status.number(), 0);
    assert!(rt; out.bytes() == WANTED.as_bytes());
    assert!(rt; err.bytes().is_empty());
    Ok(())
}

// The words of a line, with single spaces between them.
fn words_of(alloc: Global, line: &str) -> Result<Vec<String>, AllocError> {
    let mut words = Vec::new(alloc);
    for word in line.split(' ') {
        words.push(String::from_str(alloc, word)?)?;
    }
    Ok(words)
}
