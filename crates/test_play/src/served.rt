//! Commands that are asked of a node which holds the store.

use crate::answer::{tell_answer, tell_disk};
use crate::case::Case;
use crate::command::Came;
use crate::files::decoded;
use anyhow::{Context, Result};
use std::alloc::{AllocError, Global};

// What a node says first.
const GREETING: &[u8] = b"node 1\n";

// How many bytes the words of a request have at most.
const MAX_WORDS: usize = 32_768;

// What a node does otherwise than the command by itself.
static OTHERWISE: [&str; 3] = ["sync", "serve", "quit"];

/// Adds to a stream what a line says: `ask WORDS`, a request with the input that was prepared;
/// `failed WORDS` and `long WORDS`, one whose input could not be read or had more; `raw HEX`, bytes.
pub(crate) fn add_request(
    alloc: Global,
    kind: &str,
    rest: &str,
    input: &[u8],
    stream: &mut Vec<u8>,
) -> Result<()> {
    match kind {
        "ask" => add_asked(alloc, rest, input, stream)?,
        "raw" => stream.extend_from_slice(decoded(alloc, rest)?.as_slice())?,
        _ => add_head(alloc, rest, kind, stream)?,
    }
    Ok(())
}

// A request of these words and this input.
fn add_asked(
    alloc: Global,
    words: &str,
    input: &[u8],
    stream: &mut Vec<u8>,
) -> Result<(), AllocError> {
    let size = format!(in alloc; "{}", input.len())?;
    add_head(alloc, words, size.as_str(), stream)?;
    Ok(stream.extend_from_slice(input)?)
}

// The head of a request of these words, of whose input this is said, and the words.
fn add_head(
    alloc: Global,
    words: &str,
    input: &str,
    stream: &mut Vec<u8>,
) -> Result<(), AllocError> {
    let mut bytes = Vec::new(alloc);
    if !words.is_empty() {
        for word in words.split(' ') {
            bytes.extend_from_slice(word.as_bytes())?;
            bytes.push(0)?;
        }
    }
    let head = format!(in alloc; "{} {input}\n", bytes.len())?;
    stream.extend_from_slice(head.as_bytes())?;
    Ok(stream.extend_from_slice(bytes.as_slice())?)
}

/// Tells what a node comes to that is asked the requests of a stream.
pub(crate) fn tell_served(
    alloc: Global,
    case: &Case,
    stream: &[u8],
    told: &mut String,
) -> Result<Came> {
    let came = case.served(stream)?;
    told.push_str("> serve std\n")?;
    tell_came(alloc, case, &came, told)?;
    Ok(came)
}

fn tell_came(alloc: Global, case: &Case, came: &Came, told: &mut String) -> Result<()> {
    tell_answer(alloc, came, told)?;
    Ok(tell_disk(alloc, case.disk(), came.disk(), told)?)
}

/// Tells what a node comes to over each front of a stream, and for how many bytes of it first.
pub(crate) fn tell_cuts(
    alloc: Global,
    case: &Case,
    stream: &[u8],
    told: &mut String,
) -> Result<()> {
    told.push_str("> cuts\n")?;
    let mut last = String::new(alloc);
    for cut in 0..=stream.len() {
        let came = case.served(&stream[..cut])?;
        let mut now = String::new(alloc);
        tell_came(alloc, case, &came, &mut now)?;
        if now.as_str() != last.as_str() {
            writeln!(told, "from {cut}")?;
            told.push_str(now.as_str())?;
            last = now;
        }
    }
    Ok(())
}

/// Asks a node for a command that came to this by itself, and tells what it answers where that is
/// another. It asks none over files that a node would change before it is asked, or could not hold,
/// for a command that it does otherwise, or where a call is to fail.
pub(crate) fn compare(
    alloc: Global,
    case: &Case,
    words: &str,
    by_itself: &Came,
    told: &mut String,
) -> Result<bool> {
    let first = words.split_once(' ').map_or(words, |(word, _)| word);
    if OTHERWISE.contains(&first) || words.len() >= MAX_WORDS || case.fails() {
        return Ok(false);
    }
    let idle = case.served(&[])?;
    if idle.status != 0 || !idle.leaves(case.disk()) {
        return Ok(false);
    }
    let mut stream = Vec::new(alloc);
    add_asked(alloc, words, case.input(), &mut stream)?;
    let came = case.served(stream.as_slice())?;
    if !answers_alike(alloc, &came, by_itself)? {
        told.push_str("asked of a node:\n")?;
        tell_came(alloc, case, &came, told)?;
    }
    Ok(true)
}

// Whether a node that was asked once answered as the command did by itself, and left what it did.
fn answers_alike(alloc: Global, came: &Came, by_itself: &Came) -> Result<bool> {
    let (out, err) = (by_itself.out_bytes(), by_itself.err_bytes());
    let line = format!(in alloc; "{} {} {}\n", by_itself.status, out.len(), err.len())?;
    let rest = came
        .out_bytes()
        .strip_prefix(GREETING)
        .context("no greeting")?;
    let rest = rest.strip_prefix(line.as_bytes());
    let rest = rest.and_then(|rest| rest.strip_prefix(out));
    Ok(rest == Some(err) && came.leaves(by_itself.disk()))
}
