//! What a command came to, as it is printed.

use crate::command::Came;
use crate::files::{front_of, journal_of};
use bramble_hash::Blake2b;
use outside::MemDisk;
use std::alloc::{AllocError, Global};
use std::str;

// The longest bytes that are printed whole.
const MAX_SHOWN: usize = 120;

/// Tells the outputs of a command, and its status where it is another than 0.
pub(crate) fn tell_answer(alloc: Global, came: &Came, told: &mut String) -> Result<(), AllocError> {
    tell_output(alloc, came.out_bytes(), told)?;
    if came.status != 0 {
        writeln!(told, "status {}", came.status)?;
    }
    tell_output(alloc, came.err_bytes(), told)
}

// Tells an output: lines as they are, and other bytes as digits.
fn tell_output(alloc: Global, bytes: &[u8], told: &mut String) -> Result<(), AllocError> {
    match str::from_utf8(bytes) {
        Ok(text) if text.is_empty() || text.ends_with('\n') => told.push_str(text),
        _ => {
            told.push_str("bytes ")?;
            tell_bytes(alloc, bytes, told)
        }
    }
}

/// Tells the files that a command changed, and that it made no call of the disk.
pub(crate) fn tell_disk(
    alloc: Global,
    before: &MemDisk,
    after: &MemDisk,
    told: &mut String,
) -> Result<(), AllocError> {
    if after.calls() == 0 {
        told.push_str("no call\n")?;
    }
    for file in 0..2 {
        if before.file(file) != after.file(file) {
            write!(told, "file {file} ")?;
            tell_bytes(alloc, after.file(file), told)?;
        }
    }
    Ok(())
}

/// Tells the journal of a disk, up to its closed gate.
pub(crate) fn tell_journal(
    alloc: Global,
    disk: &MemDisk,
    told: &mut String,
) -> Result<(), AllocError> {
    let file = journal_of(disk);
    if !file.starts_with(b"\x01BSPJ") {
        return told.push_str("no journal\n");
    }
    told.push_str("journal ")?;
    tell_bytes(alloc, front_of(file), told)
}

/// Tells bytes: whole where they are few, else their number and digest.
pub(crate) fn tell_bytes(alloc: Global, bytes: &[u8], told: &mut String) -> Result<(), AllocError> {
    if bytes.len() <= MAX_SHOWN {
        return tell_digits(alloc, bytes, told);
    }
    write!(told, "{} ", bytes.len())?;
    let mut hash = Blake2b::<32>::new();
    hash.update(bytes);
    tell_digits(alloc, &hash.finalize(), told)
}

fn tell_digits(alloc: Global, bytes: &[u8], told: &mut String) -> Result<(), AllocError> {
    let digits = hex::encode(alloc, bytes)?;
    told.push_str(digits.as_str())?;
    told.push('\n')
}
