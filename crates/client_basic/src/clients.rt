//! The bundled clients.
ghost use Rattle.std.specs.Prelude.{◌≡◌, ◌==◌, nat_eq, if◌then◌else◌, IfOk};
ghost use Rattle.std.specs.Cmp.Lexicographic.{pointwise};
ghost use Rattle.client_basic.specs.Bodies.{bundle_meaning, feed_meaning, note_meaning};
ghost use Rattle.client_basic.specs.Bodies.{thread_meaning, verdict_of};

use crate::bodies::{judge_feed, judge_note, judge_thread};
use std::alloc::{AllocError, Global};
use sync_ids::Message;
use sync_rules::{Clients, Judgement};

const NOTE: u8 = 0;

const THREAD: u8 = 1;

const FEED: u8 = 2;

/// The client of notes, kind 0: a body is a text in UTF-8. Its groups have the name `note` and
/// major version 0.
#[derive(Clone, Copy, Debug)]
pub struct Note;

/// The client of threads, kind 1: a body is a count byte, so many parent ids of 32 bytes, and a
/// text in UTF-8, perhaps empty. Its groups have the name `thread` and major version 0.
#[derive(Clone, Copy, Debug)]
pub struct Thread;

/// The client of feeds, kind 2: a body is the previous id of 32 bytes or 32 zero bytes, and a text
/// in UTF-8, perhaps empty. A feed message is passed on by its author alone. Its groups have the
/// name `feed` and major version 0.
#[derive(Clone, Copy, Debug)]
pub struct Feed;

/// The three clients together; any other kind refuses every message.
#[derive(Clone, Copy, Debug)]
pub struct Bundle;

impl Bundle {
    /// The three clients: what they mean is `bundle_meaning`.
    pub fn new() -> Bundle
        ensures { ⟦<Bundle as Clients>⟧.meaning result ≡ bundle_meaning }
    {
        Bundle
    }
}

// The kind of a client by itself, for groups of its own name and major version 0.
fn own_kind(own_name: &str, own_kind: u8, name: &str, major: u32) -> Option<u8>
    ensures { result ≡ (if major == 0
        then (if pointwise nat_eq name.now own_name.now then Some own_kind else None) else None) }
{
    if major == 0 && name == own_name {
        Some(own_kind)
    } else {
        None
    }
}

// What the client of this kind says of a body; every other kind refuses.
fn judge_body(alloc: Global, kind: u8, body: &[u8]) -> Result<Judgement, AllocError>
    ensures { IfOk result (λ a. a ≡ verdict_of kind body.now) }
{
    match kind {
        NOTE => Ok(judge_note(alloc, body)),
        THREAD => judge_thread(alloc, body),
        FEED => judge_feed(alloc, body),
        _ => Ok(Judgement::Refuse),
    }
}

// What the client of that kind says of a body that is of this kind; it refuses any other.
fn judge_own(alloc: Global, own_kind: u8, kind: u8, body: &[u8]) -> Result<Judgement, AllocError>
    ensures { IfOk result (λ a. a ≡ (if kind == own_kind then verdict_of own_kind body.now
        else Judgement.Refuse)) }
{
    if kind == own_kind {
        judge_body(alloc, kind, body)
    } else {
        Ok(Judgement::Refuse)
    }
}

impl Clients for Note {
    ghost meaning = { λ _. note_meaning };

    fn kind_of(&self, name: &str, major: u32) -> Option<u8> {
        own_kind("note", NOTE, name, major)
    }

    fn judge(&self, alloc: Global, kind: u8, message: &Message) -> Result<Judgement, AllocError> {
        judge_own(alloc, NOTE, kind, message.body())
    }
}

impl Clients for Thread {
    ghost meaning = { λ _. thread_meaning };

    fn kind_of(&self, name: &str, major: u32) -> Option<u8> {
        own_kind("thread", THREAD, name, major)
    }

    fn judge(&self, alloc: Global, kind: u8, message: &Message) -> Result<Judgement, AllocError> {
        judge_own(alloc, THREAD, kind, message.body())
    }
}

impl Clients for Feed {
    ghost meaning = { λ _. feed_meaning };

    fn kind_of(&self, name: &str, major: u32) -> Option<u8> {
        own_kind("feed", FEED, name, major)
    }

    fn judge(&self, alloc: Global, kind: u8, message: &Message) -> Result<Judgement, AllocError> {
        judge_own(alloc, FEED, kind, message.body())
    }
}

impl Clients for Bundle {
    ghost meaning = { λ _. bundle_meaning };

    fn kind_of(&self, name: &str, major: u32) -> Option<u8> {
        if major != 0 {
            return None;
        }
        match name {
            "note" => Some(NOTE),
            "thread" => Some(THREAD),
            "feed" => Some(FEED),
            _ => None,
        }
    }

    fn judge(&self, alloc: Global, kind: u8, message: &Message) -> Result<Judgement, AllocError> {
        judge_body(alloc, kind, message.body())
    }
}
