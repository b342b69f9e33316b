//! Bytes that nobody can guess.
use crate::streams::read_full;
use std::io::ErrorKind;
use std::rt::Files;
use std::{fs, io};

/// Sixteen bytes of the system's random source.
pub fn random_bytes<R: Files>(files: &R) -> io::Result<[u8; 16]> {
    let mut bytes = [0u8; 16];
    let mut source = fs::open(files, "/dev/urandom")?;
    if read_full(&mut source, &mut bytes)? < bytes.len() {
        return Err(ErrorKind::UnexpectedEof.into());
    }
    Ok(bytes)
}
