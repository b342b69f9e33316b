//! The file of a journal: its header, and a frame for each payload, the last before a closed gate.

use anyhow::{Context, Result};
use outside::MemDisk;
use std::alloc::{AllocError, Global};

/// How many bytes a header has.
pub(crate) const HEADER: usize = 14;

// Where in a header the generation stands.
const GENERATION: usize = 6;

/// The bytes of these digits; a hyphen has none.
pub(crate) fn decoded(alloc: Global, digits: &str) -> Result<Vec<u8>> {
    if digits == "-" {
        return Ok(Vec::new(alloc));
    }
    hex::decode(alloc, digits).ok().context("no digits")
}

/// An empty journal, by the words for its format and its generation.
pub(crate) fn begun(alloc: Global, words: &str) -> Result<Vec<u8>> {
    let (format, generation) = words.split_once(' ').context("no generation")?;
    let mut file = [1, b'B', b'S', b'P', b'J', format.parse::<u8>()?].to_vec(alloc)?;
    file.extend_from_slice(&generation.parse::<u64>()?.to_be_bytes())?;
    file.push(0)?;
    Ok(file)
}

/// Adds a frame for each payload, with single spaces between their digits.
pub(crate) fn add_frames(alloc: Global, file: &mut Vec<u8>, payloads: &str) -> Result<()> {
    for digits in payloads.split(' ') {
        let payload = decoded(alloc, digits)?;
        add_frame(file, payload.as_slice())?;
    }
    Ok(())
}

/// Adds frames by the words for their count, for how many bytes of its number each has at its end,
/// and for the payload before these.
pub(crate) fn add_counted(alloc: Global, file: &mut Vec<u8>, words: &str) -> Result<()> {
    let (count, rest) = words.split_once(' ').context("no size")?;
    let (size, digits) = rest.split_once(' ').context("no payload")?;
    let front = decoded(alloc, digits)?;
    let size = size.parse::<usize>()?;
    for number in 0..count.parse::<u64>()? {
        add_numbered(alloc, file, front.as_slice(), number, size)?;
    }
    Ok(())
}

fn add_numbered(
    alloc: Global,
    file: &mut Vec<u8>,
    front: &[u8],
    number: u64,
    size: usize,
) -> Result<()> {
    let bytes = number.to_be_bytes();
    let first = bytes.len().saturating_sub(size);
    let mut payload = front.to_vec(alloc)?;
    payload.extend_from_slice(bytes.get(first..).unwrap_or(&[]))?;
    Ok(add_frame(file, payload.as_slice())?)
}

// Puts a frame in the place of the closed gate, and a closed gate behind it.
fn add_frame(file: &mut Vec<u8>, payload: &[u8]) -> Result<(), AllocError> {
    let [_, _, _, _, a, b, c, d] = (payload.len() as u64).to_be_bytes();
    let _ = file.pop();
    file.extend_from_slice(&[1, a, b, c, d])?;
    file.extend_from_slice(payload)?;
    Ok(file.push(0)?)
}

/// The file of the journal: that of the greater generation.
pub(crate) fn journal_of(disk: &MemDisk) -> &[u8] {
    if generation(disk.file(1)) > generation(disk.file(0)) {
        disk.file(1)
    } else {
        disk.file(0)
    }
}

// The generation of a file with an open header; 0 of another.
fn generation(file: &[u8]) -> u64 {
    match file.get(..HEADER) {
        Some(header) if header[0] == 1 => {
            let mut bytes = [0; 8];
            bytes.copy_from_slice(&header[GENERATION..]);
            u64::from_be_bytes(bytes)
        }
        _ => 0,
    }
}

/// A file up to the closed gate behind its frames.
pub(crate) fn front_of(file: &[u8]) -> &[u8] {
    let mut at = HEADER;
    for _ in 0..file.len() {
        match behind_frame(file, at) {
            Some(next) => at = next,
            None => break,
        }
    }
    file.get(..at).unwrap_or(file)
}

// The place behind the frame at this one, if an open gate stands there.
fn behind_frame(file: &[u8], at: usize) -> Option<usize> {
    let front = file.get(at..)?;
    let [1, a, b, c, d] = *front.get(..5)? else {
        return None;
    };
    let size = u32::from_be_bytes([a, b, c, d]) as usize;
    Some(at.saturating_add(size).saturating_add(5))
}

/// A disk with the same files.
pub(crate) fn copy_of(alloc: Global, disk: &MemDisk) -> Result<MemDisk, AllocError> {
    let first = disk.file(0).to_vec(alloc)?;
    let second = disk.file(1).to_vec(alloc)?;
    MemDisk::new(alloc, first, second)
}
