// The loop of a node that serves.
ghost use Rattle.std.specs.Prelude.{◌≡◌, ◌≤◌, ◌++◌, [], ℕ, List, Bool, OnOk};
ghost use Rattle.outside.specs.Faults.{HasCause};
ghost use Rattle.outside.specs.Streams.{Stream};
ghost use Rattle.request_frames.specs.Laws.{KeepsOf};
ghost use Rattle.request_frames.specs.Reading.{IsWhole};
ghost use Rattle.request_frames.specs.Requests.{Request};
ghost use Rattle.node_service.specs.Lives.{HasLived, shown_bytes, spelled_answer};
ghost use Rattle.node_service.specs.Serving.{AnswersAlike, AnswersNext, EndsAs, TellsFault};
ghost use Rattle.node_service.specs.Serving.{WritesText, stopped_as};
ghost use Rattle.sync_words.specs.declared.outcome.Outcome.{Outcome};

use crate::ear::{Came, Ear};
use crate::node::{Node, Reply};
use crate::output::Output;
use outside::{Failed, Host, Sink, Source, write_all, write_text};
use request_frames::{Ending, answer_line};
use std::alloc::Global;
use sync_words::Outcome;

// What a node says first: that it is ready, and which framing it speaks.
const GREETING: &str = "node 1\n";

/// Why a node ends behind a request.
#[derive(Debug, Drop)]
pub(crate) enum Stop {
    /// It ends with what the request came to.
    With(Outcome),
    /// Its answer was not told: a write failed.
    Untold,
}

// Writes three parts of a text.
fn write_parts<W: Sink>(line: &[u8], shown: &[u8], error: &[u8], out: &mut W) -> Result<(), Failed>
    ensures told { WritesText (line.now ++ (shown.now ++ error.now)) (W.tells out.old)
        (W.tells out.new) result }
    ensures cause { HasCause (W.tells out.old).faults (W.tells out.new).faults result }
{
    match write_all(out, line) {
        Ok(()) => {}
        Err(e) => return Err(e),
    }
    match write_all(out, shown) {
        Ok(()) => {}
        Err(e) => return Err(e),
    }
    write_all(out, error)
}

// Tells an answer: its line, what the output gets, and its line on the error output. It takes no
// memory.
fn tell<W: Sink>(came: &Outcome, shown: &[u8], out: &mut W) -> Result<(), Failed>
    ensures told { WritesText (spelled_answer came.now shown.now) (W.tells out.old)
        (W.tells out.new) result }
    ensures cause { HasCause (W.tells out.old).faults (W.tells out.new).faults result }
{
    let error = came.text();
    let error = error.as_bytes();
    let line = answer_line(came.status().number(), shown.len(), error.len());
    write_parts(line.as_bytes(), shown, error, out)
}

// Answers the request that was heard, and tells the answer.
fn answer_next<N: Node<H>, H: Host, W: Sink>(
    alloc: Global,
    ear: &Ear,
    node: &mut N,
    host: &mut H,
    out: &mut W,
) -> Result<(), Stop>
    requires whole { IsWhole ear.now.reader.at }
    requires may { N.may node.old host.old }
    ensures answers { (request : Request) → request.words ≡ ear.now.reader.front
        → KeepsOf request ear.now.reader.at ear.now.reader.kept
        → AnswersNext (N.answers node.old) request host.old host.new (W.tells out.old)
        (W.tells out.new) result }
    ensures same { AnswersAlike (N.answers node.new) (N.answers node.old) }
    ensures stays { OnOk result (N.may node.new host.new) }
    ensures later { (W.tells out.old).faults ≤ (W.tells out.new).faults }
{
    let (Some(size), Some(most)) = (ear.reader.input_size(), ear.reader.asked()) else {
        unreachable!()
    };
    let words = ear.reader.words();
    let kept = ear.reader.kept();
    let mut printed = Output::new(alloc);
    let reply = node.answer(words, size, most, kept, host, &mut printed);
    match tell(&reply.came, shown_of(reply.shown, &printed), out) {
        Ok(()) => ended(reply),
        Err(_) => Err(Stop::Untold),
    }
}

// What goes out of what was written to an output.
fn shown_of(shown: bool, out: &Output) -> &[u8]
    ensures { result.now ≡ shown_bytes shown out.now.bytes }
{
    if shown { out.bytes() } else { &[] }
}

// Whether the node ends behind a reply.
fn ended(reply: Reply) -> Result<(), Stop>
    ensures { EndsAs reply.ends reply.came result }
{
    if reply.ends {
        Err(Stop::With(reply.came))
    } else {
        Ok(())
    }
}

// What the node ends with that stopped so.
fn stopped(stop: Stop) -> Outcome
    ensures { result ≡ stopped_as stop }
{
    match stop {
        Stop::With(came) => came,
        Stop::Untold => Outcome::WriteFault,
    }
}

// Tells that what follows is no request.
fn tell_fault<W: Sink>(out: &mut W) -> Outcome
    ensures { TellsFault (W.tells out.old) (W.tells out.new) result }
{
    match tell(&Outcome::NoRequest, &[], out) {
        Ok(()) => Outcome::NoRequest,
        Err(_) => Outcome::WriteFault,
    }
}

/// Says that the node is ready, and answers the requests of the input in their order, each before
/// the next is looked for, until the input ends, something in it is no request, or the node ends
/// behind one. It says what the node comes to.
pub fn serve<N: Node<H>, H: Host, S: Source, W: Sink>(
    alloc: Global,
    node: &mut N,
    host: &mut H,
    input: &mut S,
    out: &mut W,
) -> Outcome
    requires { N.may node.old host.old }
    ensures { HasLived (N.answers node.old) host.old host.new (S.tells input.old) (S.tells input.new)
        (W.tells out.old) (W.tells out.new) result }
{
    let Ok(mut ear) = Ear::new(alloc) else {
        return Outcome::Memory;
    };
    match write_text(out, GREETING) {
        Ok(()) => {}
        Err(_) => return Outcome::WriteFault,
    }
    'requests: for _ in 0..u64::MAX {
        match ear.next(alloc, input) {
            Came::Request => match answer_next(alloc, &ear, node, host, out) {
                Ok(()) => {}
                Err(stop) => return stopped(stop),
            },
            Came::End(Ending::Fault) => return tell_fault(out),
            Came::Fault => return tell_fault(out),
            Came::End(Ending::Clean) => return Outcome::Done,
            Came::End(Ending::Inside) => return Outcome::Done,
            Came::ReadFault => return Outcome::ReadFault,
            Came::TooMuch => return Outcome::TooMuch,
        }
    }
    Outcome::TooMuch
}
