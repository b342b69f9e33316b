//! What a case is played with.

use crate::case::Case;
use anyhow::Result;
use outside::{MemRandom, MemSink, MemSource};
use std::alloc::{AllocError, Global};
use std::hash::RandomState;
use sync_world::replay;

// The most bytes of a script.
const LONGEST: usize = 1_048_576;

/// Plays a case, and prints what it came to.
pub(crate) fn play<P: Print>(rt: &P, alloc: Global, case: &Case) -> Result<()> {
    let hasher = RandomState::new(&MemRandom(0))?;
    let words = case.words(alloc)?;
    let mut source = source_of(alloc, case)?;
    let mut out = MemSink::new(alloc, failing(alloc, case, "no sink")?);
    let mut err = MemSink::new(alloc, failing(alloc, case, "no errors")?);
    let status = replay(
        alloc,
        hasher,
        words.as_slice(),
        &mut source,
        &mut out,
        &mut err,
    );
    println!(rt; "-- {}", case.name)?;
    println!(rt; "status {}", status.number())?;
    print_all(rt, alloc, &out)?;
    print_all(rt, alloc, &err)
}

fn source_of(alloc: Global, case: &Case) -> Result<MemSource, AllocError> {
    let mut script = Vec::from_slice(alloc, case.script)?;
    match case.apart {
        "longest" => script.resize(LONGEST, b'\n')?,
        "too long" => script.resize(LONGEST + 1, b'\n')?,
        _ => {}
    }
    Ok(MemSource::new(script, failing(alloc, case, "no source")?))
}

// The calls that fail, where the case has this apart.
fn failing(alloc: Global, case: &Case, apart: &str) -> Result<Vec<u64>, AllocError> {
    let mut calls = Vec::new(alloc);
    if case.apart == apart {
        calls.push(0)?;
    }
    Ok(calls)
}

fn print_all<P: Print>(rt: &P, alloc: Global, sink: &MemSink) -> Result<()> {
    let text = String::from_utf8(sink.bytes().to_vec(alloc)?)?;
    print!(rt; "{text}")?;
    Ok(())
}
