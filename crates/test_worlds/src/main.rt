//! Plays the worlds of its input, as the program `bsp_replay` does, and prints what each came to: its
//! status, and what it wrote to both outputs. What it must print was made by `oracle/world_model.py`,
//! worlds by plain scans that share nothing with this one.
//!
//! A zero byte stands between two cases. A case is three lines, and then a script as it is:
//!
//! - its name;
//! - the words, with one space between two;
//! - what is apart in it: empty lines behind the script until it is as long as a script may be
//!   (`longest`) or one byte longer (`too long`), or that the first call of the source, the output or
//!   the error output fails (`no source`, `no sink`, `no errors`).
#![tactic(auto)]

mod case;
mod stage;

use crate::case::Case;
use crate::stage::play;
use anyhow::{Result, bail};
use std::alloc::Global;
use std::io::Read;

// One read takes at most so many bytes, and there are at most so many reads.
const PIECE_LEN: usize = 65_536;

const MAX_READS: usize = 65_536;

fn main(rt: HostRuntime) -> Result<()> {
    let alloc = rt.alloc();
    let mut input = Vec::new(alloc);
    read_all(alloc, &mut rt.reader(), &mut input)?;
    for bytes in input.as_slice().split(|byte| *byte == 0) {
        let case = Case::of(bytes)?;
        play(&rt, alloc, &case)?;
    }
    Ok(())
}

fn read_all(alloc: Global, reader: &mut impl Read, input: &mut Vec<u8>) -> Result<()> {
    let mut piece = vec![in alloc; 0u8; PIECE_LEN]?;
    for _ in 0..MAX_READS {
        let len = reader.read(&mut piece)?;
        if len == 0 {
            return Ok(());
        }
        input.extend_from_slice(&piece[..len])?;
    }
    bail!("the input is too long")
}
