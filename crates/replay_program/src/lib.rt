//! The program `bsp_replay` over any runtime and any standard streams.
#![tactic(auto)]

mod help;
mod texts;

use crate::help::{answer, help_asked, is_lost, report};
use arguments::words;
use outside::{Sink, write_text};
use outside_real::{StdSink, StdSource};
use std::alloc::Global;
use std::hash::RandomState;
use std::io::{Read, Write};
use std::process::ExitCode;
use std::random::RandomSource;
use std::rt::Runtime;
use sync_words::{Outcome, Status};
use sync_world::replay;

// Where help is: a line behind the usage line of words that begin with none that the program knows.
const HINT: &str = "bsp_replay help says what there is\n";

/// Plays the script or the world that the words of the command line ask for, or answers what they
/// ask of the program itself.
pub fn replay_program<R, I, O, E>(rt: &R, input: I, out: O, err: E) -> ExitCode
where
    R: Runtime + AllocGlobal + RandomSource,
    I: Read + Drop,
    O: Write + Drop,
    E: Write + Drop,
{
    let alloc = rt.alloc();
    let mut out = StdSink::new(out);
    let mut err = StdSink::new(err);
    let Ok(words) = words(rt, alloc) else {
        return report(&Outcome::Memory, &mut err).exit_code();
    };
    let status = match help_asked(words.as_slice()) {
        Some(asked) => answer(asked, &mut out, &mut err),
        None => play(rt, alloc, words.as_slice(), input, &mut out, &mut err),
    };
    status.exit_code()
}

// Plays what the words ask for. Behind a usage line of words that begin with none that the program
// knows a second line says where help is.
fn play<R: RandomSource, I: Read + Drop, O: Sink, E: Sink>(
    rt: &R,
    alloc: Global,
    words: &[String],
    input: I,
    out: &mut O,
    err: &mut E,
) -> Status {
    // A system that gives no random bytes has none to give for the tables.
    let Ok(hasher) = RandomState::new(rt) else {
        return report(&Outcome::Memory, err);
    };
    let mut input = StdSource::new(input);
    let status = replay(alloc, hasher, words, &mut input, out, err);
    if status == Status::Usage && is_lost(words) {
        let _ = write_text(err, HINT);
    }
    status
}
