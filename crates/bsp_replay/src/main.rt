//! The program `bsp_replay`: plays a script of several devices, or a world that a seed makes.
#![tactic(auto)]

use replay_program::replay_program;
use std::process::ExitCode;

fn main(rt: HostRuntime) -> ExitCode {
    let (input, out, err) = (rt.stdin(), rt.stdout(), rt.stderr());
    replay_program(&rt, input, out, err)
}
