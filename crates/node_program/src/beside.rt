//! What is asked of a node beside a command, and what is told of its answer.
ghost use Rattle.std.specs.Prelude.{◌≡◌};
ghost use Rattle.node_program.specs.Needs.{beside_of};

use crate::queue::{Found, Queue};
use commands::Command;
use hand_over::{Met, Question, ask, meet, watch};
use outside::Sink;
use outside_real::{EarlySource, Need, Turn, Unmet};
use request_frames::InputSize;
use std::alloc::{AllocError, Global};
use std::fs::{File, Files};
use std::io::Read;
use std::net::Net;
use std::time::Clock;
use sync_top::Outcome;

/// How a command stands to a node that holds the store.
#[derive(Clone, Copy, PartialEq, Eq)]
pub enum Beside {
    /// It uses no store.
    Apart,
    /// The node does it.
    Done,
    /// The node does it, or it is done as well by itself.
    Listed,
    /// It wants the store for itself for as long as it runs, and the node has it.
    Held,
}

/// How a command stands to a node that holds the store.
pub fn beside_of(command: &Command) -> Beside
    ensures { result ≡ beside_of command.now }
{
    match command {
        Command::Try(_, _) | Command::Records => Beside::Apart,
        Command::Sync(_, _, _) | Command::Serve => Beside::Held,
        Command::Quit => Beside::Done,
        _ if command.may_write() => Beside::Done,
        _ => Beside::Listed,
    }
}

/// What came of a search for a node.
pub enum Sought {
    /// It answered so, or so it ended without its answer.
    Told(Result<u8, Outcome>),
    /// The command is done by itself, at its turn, where the files can be had.
    Alone(Result<Turn, Unmet>),
}

/// What a command is, for a node beside it.
#[derive(Clone, Copy)]
pub struct Errand {
    /// How it stands to the node.
    pub beside: Beside,
    /// What it needs of the files by itself.
    pub need: Need,
    /// How many bytes of its input are read before.
    pub early: usize,
}

/// Has a command done by the node that holds the store, where one answers, or waits for its turn. It
/// fails only for want of memory.
pub fn seek<R, I, O, E>(
    rt: &R,
    alloc: Global,
    words: &[String],
    errand: &Errand,
    input: &EarlySource<I>,
    out: &mut O,
    err: &mut E,
) -> Result<Sought, AllocError>
where
    R: Files<File = File> + Net + Clock,
    I: Read + Drop,
    O: Sink,
    E: Sink,
{
    let question = Question {
        words,
        size: size_of(input, errand.early),
        input: sent(input, errand.early),
        lists: errand.beside == Beside::Listed,
    };
    let mut queue = Queue::new(errand.need);
    if errand.beside == Beside::Apart {
        queue.go_alone();
    }
    for _ in 0..u64::MAX {
        match queue.wait(rt, alloc)? {
            Found::Node(_) if errand.beside == Beside::Held => {
                return Ok(Sought::Told(Err(Outcome::NodeHolds)));
            }
            Found::Node(wire) => match ask(alloc, wire, &question, out, err)? {
                Some(came) => return Ok(Sought::Told(came)),
                None => queue.go_alone(),
            },
            Found::Busy => return Ok(Sought::Told(Err(Outcome::NodeBusy))),
            Found::Nobody(turn) => return Ok(Sought::Alone(turn)),
        }
    }
    Err(AllocError)
}

/// As `seek`, for one that stays.
pub fn seek_to_stay<R>(rt: &R, alloc: Global) -> Result<Sought, AllocError>
where
    R: Files<File = File> + Net + Clock,
{
    Ok(match Queue::new(Need::Stay).wait(rt, alloc)? {
        Found::Node(_) => Sought::Told(Err(Outcome::NodeHolds)),
        Found::Busy => Sought::Told(Err(Outcome::NodeBusy)),
        Found::Nobody(turn) => Sought::Alone(turn),
    })
}

/// Tells what a node delivers. It fails only for want of memory.
pub fn watch_node<R, O, E>(
    rt: &R,
    alloc: Global,
    words: &[String],
    out: &mut O,
    err: &mut E,
) -> Result<Result<u8, Outcome>, AllocError>
where
    R: Files<File = File> + Net + Clock,
    O: Sink,
    E: Sink,
{
    match meet(rt, alloc)? {
        Met::Node(wire) => watch(alloc, wire, words, out, err),
        Met::Busy => Ok(Err(Outcome::NodeBusy)),
        Met::Nobody => Ok(Err(Outcome::NoNode)),
    }
}

// What is said of an input of which at most so many bytes were read early.
fn size_of<I: Read + Drop>(input: &EarlySource<I>, most: usize) -> InputSize {
    if input.has_failed() {
        InputSize::Failed
    } else if most > 0 && input.early_len() >= most {
        InputSize::Long
    } else {
        InputSize::Bytes(input.early_len())
    }
}

// What is sent of it.
fn sent<I: Read + Drop>(input: &EarlySource<I>, most: usize) -> &[Vec<u8>] {
    match size_of(input, most) {
        InputSize::Bytes(_) => input.early(),
        InputSize::Failed | InputSize::Long => &[],
    }
}
