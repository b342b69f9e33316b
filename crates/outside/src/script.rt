//! What a link of a host in memory is to answer.
ghost use Rattle.std.specs.Prelude.{◌≡◌, [], ◌++◌, take, drop, MatchBool, IfOk, OnOk, OnErr};
ghost use Rattle.std.specs.Option.{option_map};
ghost use Rattle.outside.specs.MemDisk.{reply_of};
ghost use Rattle.outside.specs.Script.{planned_of, plan_from, left_in};
ghost use Rattle.outside.specs.Script.{FitsIn, BringsBytes, IsAnswerReady};
ghost use Rattle.outside.specs.Planned.{reply_to, plan_after};

use crate::{Answer, Reply};
use std::alloc::{AllocError, Global};
use std::marker::Model;

/// Answers to be given in order. Those before `next` were given, and of bytes at `next` those
/// before `at`.
#[derive(Drop)]
pub struct Script {
    answers: Vec<Answer>,
    next: usize,
    at: usize,
}

impl Model for Script {
    ghost use Rattle.std.specs.Prelude.{List, drop};
    ghost use Rattle.outside.specs.Links.{Planned};
    ghost use Rattle.outside.specs.Script.{plan_from, IsAnswerReady};

    ghost Value = { List Planned };

    ghost view = { λ s. plan_from s.at (drop s.next s.answers.items) };

    ghost invariant = { λ s. IsAnswerReady s.next s.at s.answers.items };
}

impl Script {
    /// A script that is used up.
    pub fn new(alloc: Global) -> Script
        ensures { result ≡ [] }
    {
        Script {
            answers: Vec::new(alloc),
            next: 0,
            at: 0,
        }
    }

    /// Adds an answer at the end; bytes of which there are none are left out.
    pub fn add(&mut self, answer: Answer) -> Result<(), AllocError>
        ensures ok { OnOk result (self.new ≡ self.old ++ planned_of answer) }
        ensures err { OnErr result (self.new ≡ self.old) }
    {
        if is_full(&answer) {
            self.answers.push(answer)?;
        }
        Ok(())
    }

    /// The answer to a buffer of so many bytes; none is a failure.
    pub fn reply(&self, alloc: Global, room: usize) -> Result<Option<Reply>, AllocError>
        ensures reply { IfOk result (λ r. option_map reply_of r ≡ reply_to room self.now) }
        ensures fits { FitsIn room (reply_to room self.now) }
    {
        match self.answers.get(self.next) {
            Some(Answer::Bytes(bytes)) => {
                let part = front(&bytes[self.at..], room);
                Ok(Some(Reply::Got(Vec::from_slice(alloc, part)?)))
            }
            Some(Answer::Idle) => Ok(Some(Reply::Idle)),
            Some(Answer::Fail) => Ok(None),
            Some(Answer::End) | None => Ok(Some(Reply::Ended)),
        }
    }

    /// Leaves the answer to a buffer of so many bytes behind.
    pub fn pass(&mut self, room: usize)
        ensures { self.new ≡ plan_after room self.old }
    {
        let (next, at) = behind(&self.answers, self.next, self.at, room);
        self.next = next;
        self.at = at;
    }
}

// The place behind the answer to a buffer of so many bytes.
fn behind(answers: &[Answer], next: usize, at: usize, room: usize) -> (usize, usize)
    requires { IsAnswerReady next at answers.now }
    ensures ready { IsAnswerReady result.0 result.1 answers.now }
    ensures script { plan_from result.1 (drop result.0 answers.now) ≡ plan_after room
        (plan_from at (drop next answers.now)) }
{
    if next >= answers.len() {
        return (next, at);
    }
    if room < left_in(&answers[next], at) {
        (next, at + room)
    } else {
        (next + 1, 0)
    }
}

// How many bytes an answer has from a place on.
fn left_in(answer: &Answer, at: usize) -> usize
    ensures { result ≡ left_in at answer.now }
{
    match answer {
        Answer::Bytes(bytes) => bytes.len().saturating_sub(at),
        Answer::Idle | Answer::End | Answer::Fail => 0,
    }
}

// Whether there is something to hear.
fn is_full(answer: &Answer) -> bool
    ensures { MatchBool result (BringsBytes answer.now) (planned_of answer.now ≡ []) }
{
    match answer {
        Answer::Bytes(bytes) => !bytes.is_empty(),
        Answer::Idle | Answer::End | Answer::Fail => true,
    }
}

// As many bytes as there is room for.
fn front(bytes: &[u8], room: usize) -> &[u8]
    ensures { result.now ≡ take room bytes.now }
{
    &bytes[..room.min(bytes.len())]
}
