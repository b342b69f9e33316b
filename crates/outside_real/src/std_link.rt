//! A link over the standard input and output.
ghost use Rattle.std.specs.Prelude.{◌<◌, length};
ghost use Rattle.outside_real.specs.Heard.{FitsBuffer};

use crate::streams::{read_once, write_full};
use outside::{Failed, Heard};
use std::io;
use std::io::Read;

/// Reads once, and waits until there is something to read.
pub fn hear<S: Read>(from: &mut S, buf: &mut [u8]) -> Heard
    requires { 0 < length buf.old }
    ensures { FitsBuffer (length buf.new) result }
{
    match read_once(from, buf) {
        Ok(0) => Heard::End,
        Ok(n) => Heard::Got(n),
        Err(_) => Heard::Failed,
    }
}

/// Writes all bytes, and waits until they are taken.
pub fn send(to: &impl Print, bytes: &[u8]) -> Result<(), Failed> {
    match write_full(&mut io::writer(to), bytes) {
        Ok(()) => Ok(()),
        Err(_) => Err(Failed),
    }
}
