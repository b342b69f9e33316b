//! Plays runs of `sync` with failing calls and cut streams, compactions and mailbox files: the cases
//! are `oracle/run_cases.py`'s, and what they must print is by `oracle/run_model.py`, a node by plain
//! scans that shares nothing with this one.
#![tactic(auto)]

use anyhow::Result;
use std::io;
use test_play::play_text;

fn main(rt: HostRuntime) -> Result<()> {
    let text = io::read_to_string(rt.alloc(), rt.stdin())?;
    play_text(&rt, rt.alloc(), text.as_str())
}
