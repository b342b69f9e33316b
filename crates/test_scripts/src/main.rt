//! Prints what the scripts on the standard input say, line by line, and the steps of some generated
//! worlds. A zero byte stands between two scripts.
#![tactic(auto)]

mod spelling;

use crate::spelling::spelled;
use anyhow::{Result, bail};
use std::alloc::{AllocError, Global};
use std::io::Read;
use world_scripts::{
    Action, GENERATED_DEVICES, Generator, MAX_POSTS, MAX_SCRIPT, Script, ScriptFault, open_script,
};

// The seeds of the generated worlds, and how many posts each has.
const WORLDS: [(u64, u32); 4] = [(7, 203), (0, 1), (u64::MAX, 100), (1, 101)];

// One read takes at most so many bytes.
const PIECE_LEN: usize = 4_096;

fn main(rt: HostRuntime) -> Result<()> {
    let alloc = rt.alloc();
    let mut input = Vec::new(alloc);
    read_all(alloc, &mut rt.reader(), &mut input)?;
    for (place, script) in input.as_slice().split(|byte| *byte == 0).enumerate() {
        println!(rt; "-- script {place}")?;
        print_script(&rt, alloc, script)?;
    }
    for (seed, count) in WORLDS {
        println!(rt; "-- gen {seed} {count}")?;
        print_world(&rt, alloc, seed, count)?;
    }
    Ok(())
}

fn read_all(alloc: Global, reader: &mut impl Read, input: &mut Vec<u8>) -> Result<()> {
    let mut piece = vec![in alloc; 0u8; PIECE_LEN]?;
    for _ in 0..MAX_SCRIPT {
        let len = reader.read(&mut piece)?;
        if len == 0 {
            return Ok(());
        }
        input.extend_from_slice(&piece[..len])?;
    }
    bail!("the input is too long")
}

fn print_script<P: Print>(rt: &P, alloc: Global, script: &[u8]) -> Result<()> {
    if script.len() > MAX_SCRIPT {
        bail!("a script is too long");
    }
    match open_script(alloc, script) {
        Ok(opened) => {
            let mut script = opened.script;
            println!(rt; "devices {}", opened.devices)?;
            print_actions(rt, alloc, &mut script)
        }
        Err(fault) => {
            let text = fault_text(alloc, fault)?;
            Ok(println!(rt; "{text}")?)
        }
    }
}

fn print_actions<P: Print>(rt: &P, alloc: Global, script: &mut Script) -> Result<()> {
    for _ in 0..MAX_SCRIPT {
        let (text, is_last) = next_text(alloc, script)?;
        println!(rt; "{text}")?;
        if is_last {
            return Ok(());
        }
    }
    bail!("a script has no end")
}

// What is printed of the next line of a script, and whether nothing follows it.
fn next_text(alloc: Global, script: &mut Script) -> Result<(String, bool), AllocError> {
    match script.next_action(alloc) {
        Ok(Some((number, action))) => Ok((action_text(alloc, number, &action)?, false)),
        Ok(None) => Ok((String::from_str(alloc, "end")?, true)),
        Err(fault) => Ok((fault_text(alloc, fault)?, true)),
    }
}

fn action_text(alloc: Global, number: u32, action: &Action) -> Result<String, AllocError> {
    match action {
        Action::Step(step) => {
            let line = spelled(alloc, step)?;
            format!(in alloc; "{number}: {line}")
        }
        Action::Show(device) => format!(in alloc; "{number}: show {device}"),
    }
}

fn fault_text(alloc: Global, fault: ScriptFault) -> Result<String, AllocError> {
    match fault {
        ScriptFault::BadLine(number) => format!(in alloc; "bad line {number}"),
        ScriptFault::Memory => Err(AllocError),
    }
}

fn print_world<P: Print>(rt: &P, alloc: Global, seed: u64, count: u32) -> Result<()> {
    println!(rt; "devices {GENERATED_DEVICES}")?;
    let mut steps = Generator::new(seed, count.min(MAX_POSTS));
    for _ in 0..MAX_SCRIPT {
        let Some(step) = steps.next_step(alloc)? else {
            return Ok(());
        };
        let line = spelled(alloc, &step)?;
        println!(rt; "{line}")?;
    }
    bail!("a world has no end")
}
