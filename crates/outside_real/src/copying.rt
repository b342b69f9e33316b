//! The files of a store, copied beside a process that may write them.
use crate::lock::pause;
use crate::opening::{is_there, open};
use crate::streams::read_full;
use std::alloc::Global;
use std::fs::OpenFile;
use std::io;
use std::io::{ErrorKind, Read};
use std::path::{Path, PathBuf};
use std::rt::Files;
use std::time::Clock;

// How many bytes of a file are read at once.
const PIECE: usize = 1_048_576;

// How many pieces are read at most: more than a journal has, and of what lies behind none is read.
const MOST_PIECES: usize = 257;

// How many bytes these are.
const MOST: usize = MOST_PIECES * PIECE;

// How many bytes of a file say which journal it has.
const HEADER: usize = 14;

// How often the files are copied where another one takes over meanwhile: a node that serves may be
// asked to compact its store again and again.
const MOST_COPIES: usize = 100;

/// Both files of a store as they stood at one time. Each is read once, from its first byte on to
/// the last one that is there. A process that adds to a journal writes a frame, and the byte that
/// opens it behind that; so a front of the journal is read. Where a journal begins in one of the
/// files meanwhile, both are read again after a moment.
pub fn copy_both<R: Files + Clock>(
    files: &R,
    alloc: Global,
    folder: &str,
) -> io::Result<(Vec<u8>, Vec<u8>)> {
    let first = Path::new(folder).join(alloc, "bsp.0")?;
    let second = Path::new(folder).join(alloc, "bsp.1")?;
    for _ in 0..MOST_COPIES {
        let both = (copy(files, alloc, &first)?, copy(files, alloc, &second)?);
        if begins_so(files, &first, both.0.as_slice())?
            && begins_so(files, &second, both.1.as_slice())?
        {
            return Ok(both);
        }
        pause(files);
    }
    Err(ErrorKind::ResourceBusy.into())
}

// The bytes of a file; none where it is not there.
fn copy<R: Files>(files: &R, alloc: Global, path: &PathBuf) -> io::Result<Vec<u8>> {
    if !is_there(files, path.as_path())? {
        return Ok(Vec::new(alloc));
    }
    let mut file = open(files, path.as_path())?;
    let len = file.metadata()?.len().min(MOST as u64) as usize;
    read_all(&mut file, alloc, len)
}

// The bytes up to the end, as it is once it is reached. Memory is taken once, for a file of this
// length and what is read behind it; more only where the file grows meanwhile.
fn read_all<F: Read>(from: &mut F, alloc: Global, len: usize) -> io::Result<Vec<u8>> {
    let mut bytes = Vec::with_capacity(alloc, len.saturating_add(PIECE))?;
    for _ in 0..MOST_PIECES {
        let had = bytes.len();
        bytes.resize(had.saturating_add(PIECE), 0)?;
        let n = read_full(from, &mut bytes.as_mut_slice()[had..])?;
        bytes.truncate(had.saturating_add(n));
        if n < PIECE {
            break;
        }
    }
    Ok(bytes)
}

// Whether a file begins as these bytes do.
fn begins_so<R: Files>(files: &R, path: &PathBuf, bytes: &[u8]) -> io::Result<bool> {
    let mut header = [0u8; HEADER];
    let mut n = 0;
    if is_there(files, path.as_path())? {
        n = read_full(&mut open(files, path.as_path())?, &mut header)?;
    }
    Ok(header[..n.min(HEADER)] == bytes[..bytes.len().min(HEADER)])
}
