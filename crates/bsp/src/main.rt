//! The program `bsp`: a node of the Bramble Synchronisation Protocol.
#![tactic(auto)]

use node_program::run_program;
use std::process::ExitCode;

fn main(rt: HostRuntime) -> ExitCode {
    let (input, out, err) = (rt.stdin(), rt.stdout(), rt.stderr());
    run_program(rt, input, out, err)
}
