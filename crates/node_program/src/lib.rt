//! The program `bsp` over any runtime and any standard streams.
#![tactic(auto)]

mod beside;
mod help;
mod need;
mod queue;
mod texts;

use crate::beside::{Beside, Errand, Sought, beside_of, seek, seek_to_stay, watch_node};
use crate::help::{answer, help_asked, is_lost};
use crate::need::{early_input, need_of};
use arguments::words;
use client_sharing::SharingBundle;
use commands::{WordsFault, read_words};
use outside::{Sink, write_text};
use outside_real::{
    Cause, EarlySource, FileHost, Need, StdSink, Turn, Unmet, hold_standard_numbers,
};
use stay_loop::{Course, stay};
use stay_words::{LinksOfStay, Stay, Way, read_stay};
use std::alloc::{AllocError, Global};
use std::fs::{File, Files};
use std::hash::RandomState;
use std::io::{Read, Write};
use std::net::Net;
use std::process::ExitCode;
use std::random::RandomSource;
use std::rt::Runtime;
use sync_top::{Outcome, Status, report, run};

// Where help is: a line behind the usage line of words that begin with no command.
const HINT: &str = "bsp help lists the commands\n";

/// Does what the words of the command line ask for, in the folder that is current, or answers what
/// they ask of the program itself. No file may have been opened yet.
pub fn run_program<R, I, O, E>(rt: R, input: I, out: O, err: E) -> ExitCode
where
    R: Runtime + Files<File = File> + AllocGlobal + Net + RandomSource,
    I: Read + Drop,
    O: Write + Drop,
    E: Write + Drop,
{
    let alloc = rt.alloc();
    let mut err = StdSink::new(err);
    // No file was opened yet, so none has the number of a stream that is closed.
    let _numbers = match hold_standard_numbers(&rt) {
        Ok(numbers) => numbers,
        Err(e) => {
            let status = report(&Outcome::DiskFault, &mut err);
            tell(Some(Cause::of(&e)), &mut err);
            return status.exit_code();
        }
    };
    let Ok(words) = words(&rt, alloc) else {
        return report(&Outcome::Memory, &mut err).exit_code();
    };
    let status = match read_stay(alloc, words.as_slice()) {
        Ok(Some(Stay::Serve(way, links))) => serve(rt, alloc, way, links, input, out, err),
        Ok(Some(Stay::Watch(_))) => watch_words(rt, alloc, words.as_slice(), out, err),
        Ok(None) => answer_words(rt, alloc, words.as_slice(), input, out, err),
        Err(fault) => report(&Outcome::from(fault), &mut err).number(),
    };
    ExitCode::from(status)
}

// Tells what a node delivers.
fn watch_words<R, O, E>(rt: R, alloc: Global, words: &[String], out: O, err: StdSink<E>) -> u8
where
    R: Runtime + Files<File = File> + AllocGlobal + Net + RandomSource,
    O: Write + Drop,
    E: Write + Drop,
{
    let (mut out, mut err) = (StdSink::new(out), err);
    match watch_node(&rt, alloc, words, &mut out, &mut err) {
        Ok(came) => told(came, &mut err),
        Err(AllocError) => report(&Outcome::Memory, &mut err).number(),
    }
}

// Is a node that stays, where none holds the store.
fn serve<R, I, O, E>(
    rt: R,
    alloc: Global,
    way: Way,
    links: LinksOfStay,
    input: I,
    out: O,
    err: StdSink<E>,
) -> u8
where
    R: Runtime + Files<File = File> + AllocGlobal + Net + RandomSource,
    I: Read + Drop,
    O: Write + Drop,
    E: Write + Drop,
{
    let mut err = err;
    let turn = match seek_to_stay(&rt, alloc) {
        Ok(Sought::Alone(turn)) => turn,
        Ok(Sought::Told(came)) => return told(came, &mut err),
        Err(AllocError) => return report(&Outcome::Memory, &mut err).number(),
    };
    let Ok(hasher) = RandomState::new(&rt) else {
        return report(&Outcome::Memory, &mut err).number();
    };
    let course = Course {
        turn,
        way,
        links,
        input,
        out,
        err,
    };
    stay(rt, alloc, hasher, course, SharingBundle::new()).number()
}

// Does what the words ask for, or answers what they ask of the program itself.
fn answer_words<R, I, O, E>(
    rt: R,
    alloc: Global,
    words: &[String],
    input: I,
    out: O,
    err: StdSink<E>,
) -> u8
where
    R: Runtime + Files<File = File> + AllocGlobal + Net + RandomSource,
    I: Read + Drop,
    O: Write + Drop,
    E: Write + Drop,
{
    let (mut out, mut err) = (StdSink::new(out), err);
    match help_asked(words) {
        Some(asked) => answer(asked, &mut out, &mut err).number(),
        None => match obey(rt, alloc, words, input, &mut out, &mut err) {
            Ok(status) => status,
            Err(AllocError) => report(&Outcome::Memory, &mut err).number(),
        },
    }
}

// Tells the outcome that came in the place of a node's answer, and says the status of either.
fn told<E: Sink>(came: Result<u8, Outcome>, err: &mut E) -> u8 {
    match came {
        Ok(status) => status,
        Err(outcome) => report(&outcome, err).number(),
    }
}

// Does what the words ask for: a node that holds the store does it where one answers, and else it is
// done here.
fn obey<R, I, O, E>(
    rt: R,
    alloc: Global,
    words: &[String],
    input: I,
    out: &mut StdSink<O>,
    err: &mut StdSink<E>,
) -> Result<u8, AllocError>
where
    R: Runtime + Files<File = File> + AllocGlobal + Net + RandomSource,
    I: Read + Drop,
    O: Write + Drop,
    E: Write + Drop,
{
    let mut input = EarlySource::new(alloc, input);
    let errand = prepare(alloc, words, &mut input)?;
    match seek(&rt, alloc, words, &errand, &input, out, err)? {
        Sought::Told(came) => Ok(told(came, err)),
        Sought::Alone(turn) => alone(rt, alloc, words, errand.need, turn, input, out, err),
    }
}

// Does what the words ask for by itself. The locks on the files of the store are let go of before the
// first write to the output or the error output. Behind `disk fault` a second line says why, and
// behind a usage line of words that begin with no command where help is.
fn alone<R, I, O, E>(
    rt: R,
    alloc: Global,
    words: &[String],
    need: Need,
    turn: Result<Turn, Unmet>,
    input: EarlySource<I>,
    out: &mut StdSink<O>,
    err: &mut StdSink<E>,
) -> Result<u8, AllocError>
where
    R: Runtime + Files<File = File> + AllocGlobal + Net + RandomSource,
    I: Read + Drop,
    O: Write + Drop,
    E: Write + Drop,
{
    let mut input = input;
    // A system that gives no random bytes has none to give for the tables.
    let Ok(hasher) = RandomState::new(&rt) else {
        return Err(AllocError);
    };
    let mut host = FileHost::had(rt, ".", need, turn)?;
    hand_lock(&host, need, out, err)?;
    let status = run(
        alloc,
        hasher,
        words,
        &mut host,
        &mut input,
        out,
        err,
        &SharingBundle::new(),
    );
    match status {
        Status::DiskFault => tell(host.cause(), err),
        Status::Usage if is_lost(words) => {
            let _ = write_text(err, HINT);
        }
        _ => {}
    }
    Ok(status.number())
}

// Has both outputs let go of the locks on the files before they write. Who stays writes to its output
// for as long as it holds the files, and to the error output once it is done with them.
fn hand_lock<R: Runtime + Net, O: Write + Drop, E: Write + Drop>(
    host: &FileHost<R>,
    need: Need,
    out: &mut StdSink<O>,
    err: &mut StdSink<E>,
) -> Result<(), AllocError> {
    if need != Need::Stay {
        out.let_go_first(host.lock()?);
    }
    err.let_go_first(host.lock()?);
    Ok(())
}

// Says why a call on a file failed. That the error output fails changes nothing.
fn tell<S: Sink>(cause: Option<Cause>, err: &mut S) {
    if let Some(cause) = cause {
        let _ = write_text(err, cause.line());
    }
}

// What the command of these words is for a node beside it, once its input was read: nobody waits for
// this one while it waits for that. It fails only for want of memory.
fn prepare<I: Read + Drop>(
    alloc: Global,
    words: &[String],
    input: &mut EarlySource<I>,
) -> Result<Errand, AllocError> {
    match read_words(alloc, words) {
        Ok(command) => {
            let early = early_input(&command);
            input.read_early(early)?;
            Ok(Errand {
                beside: beside_of(&command),
                need: need_of(&command),
                early,
            })
        }
        Err(WordsFault::Usage(_)) => Ok(Errand {
            beside: Beside::Apart,
            need: Need::Nothing,
            early: 0,
        }),
        Err(WordsFault::Memory) => Err(AllocError),
    }
}
