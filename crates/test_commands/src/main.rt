//! Plays the commands over a host in memory: texts, statuses and every byte of the files; refusals and
//! limits; damaged and foreign files; crashes and failing calls; stores of format 1. The cases and what
//! they must print are by `oracle/command_cases.py`, which shares nothing with the program.
#![tactic(auto)]

use anyhow::Result;
use std::io;
use test_play::play_text;

fn main(rt: HostRuntime) -> Result<()> {
    let text = io::read_to_string(rt.alloc(), rt.stdin())?;
    play_text(&rt, rt.alloc(), text.as_str())
}
