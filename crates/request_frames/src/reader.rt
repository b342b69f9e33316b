//! The reader of a stream of requests.
ghost use Rattle.std.specs.Prelude.{◌≡◌, ◌≤◌, ◌<◌, ◌-◌, ℕ, List, [], length, take, IfOk, OnOk};
ghost use Rattle.request_frames.specs.declared.reader.Stage.TheVariants as stage;
ghost use Rattle.request_frames.specs.Requests.{are_words, ending, requests};
ghost use Rattle.std.specs.Prelude.{IsOk, OnErr, ◌+◌, ◌++◌};
ghost use Rattle.std.specs.Vec.{vec_capacity, vec_len};
ghost use Rattle.request_frames.specs.Reading.{Awaits, IsAsked, KeepsMost, LeavesAt, ReadsOn};
ghost use Rattle.request_frames.specs.Reading.{StandsFor, asked_at, asked_from, end_at};
ghost use Rattle.request_frames.specs.Reading.{fresh_reader, size_at};

use crate::head::{FoundHead, HEAD_LEN, Head, InputSize, MAX_INPUT, MAX_WORDS, head_of};
use std::alloc::{AllocError, Global};
use std::marker::Model;

/// How a stream ends.
#[derive(Clone, Copy, Debug, PartialEq, Eq)]
pub enum Ending {
    /// Behind a whole request, or with no byte at all.
    Clean,
    /// Inside a request, which is dropped.
    Inside,
    /// Behind the whole requests begins what is none.
    Fault,
}

/// What a reader has to tell.
#[derive(Clone, Copy, Debug, PartialEq, Eq)]
pub enum Next {
    /// The words of a request are there, and how much of its input is to be kept is asked.
    Words,
    /// A request is there whole.
    Whole,
    /// Nothing before more bytes come.
    More,
    /// What stands next is no request.
    Fault,
}

/// What was heard of a piece: how many bytes of its front were taken, and what is to be told.
#[derive(Clone, Copy, Debug, PartialEq, Eq)]
pub struct Heard {
    /// How many bytes were taken.
    pub used: usize,
    /// What is to be told.
    pub next: Next,
}

/// Where in a request a reader stands.
#[derive(Clone, Copy, Debug, PartialEq, Eq)]
pub enum Stage {
    /// Before it, or in its head.
    Head,
    /// In its words, with this head.
    Words(Head),
    /// Behind its words, with its input to come, of which it is asked how much to keep.
    Asked(InputSize),
    /// In its input, of which at most so many bytes are kept, and so many came.
    Input(InputSize, usize, usize),
    /// Behind it; at most so many bytes of its input were kept.
    Whole(InputSize, usize),
    /// Nothing that comes is a request.
    Fault,
}

/// A reader of requests that come in pieces. Contracts see where it stands, the head or the words
/// as far as they came, and what is kept of the input.
#[derive(Drop)]
pub struct Reader {
    alloc: Global,
    at: Stage,
    front: Vec<u8>,
    kept: Vec<u8>,
}

impl Model for Reader {
    ghost use Rattle.std.specs.Vec.{vec_capacity, vec_len};
    ghost use Rattle.request_frames.specs.Reading.{IsReaderSound, ReaderState};

    ghost Value = { ReaderState };

    ghost view = { λ r. record { at = r.at; front = r.front.items; kept = r.kept.items } };

    ghost invariant = { λ r. IsReaderSound r.at r.front.items (vec_len r.front)
        (vec_capacity r.front) (vec_len r.kept) (vec_capacity r.kept) };
}

impl Reader {
    /// A reader at the start of a stream. It takes the room for the words here, and that for what
    /// is kept of an input in `keep`. It fails only for want of memory.
    pub fn new(alloc: Global) -> Result<Reader, AllocError>
        ensures { IfOk result (λ r. r ≡ fresh_reader) }
    {
        Ok(Reader {
            alloc,
            at: Stage::Head,
            front: Vec::with_capacity(alloc, MAX_WORDS)?,
            kept: Vec::new(alloc),
        })
    }

    /// Hears what comes next in the stream, up to what there is to tell. It takes no memory.
    pub fn hear(&mut self, piece: &[u8]) -> Heard
        ensures reads { ReadsOn (take result.used piece.now) self.old result.next self.new }
        ensures within { result.used ≤ length piece.now }
        ensures left { LeavesAt result.next result.used (length piece.now) self.new }
        ensures asked { asked_at self.new.at ≡ asked_from self.old.at }
    {
        match self.at {
            Stage::Head => self.hear_head(piece),
            Stage::Words(head) => self.hear_words(head, piece),
            Stage::Asked(_) => Heard {
                used: 0,
                next: Next::Words,
            },
            Stage::Input(size, most, came) => self.hear_input(size, most, came, piece),
            Stage::Whole(_, _) => {
                self.front.clear();
                self.at = Stage::Head;
                self.hear_head(piece)
            }
            Stage::Fault => Heard {
                used: piece.len(),
                next: Next::Fault,
            },
        }
    }

    // Hears a head, and the words behind it.
    fn hear_head(&mut self, piece: &[u8]) -> Heard
        requires { self.old.at ≡ stage.Head }
        ensures reads { ReadsOn (take result.used piece.now) self.old result.next self.new }
        ensures within { result.used ≤ length piece.now }
        ensures left { LeavesAt result.next result.used (length piece.now) self.new }
        ensures asked { asked_at self.new.at ≡ asked_from self.old.at }
    {
        let held = self.front.len();
        let count = piece.len().min(HEAD_LEN - held);
        extend(&mut self.front, &piece[..count]);
        match head_of(self.front.as_slice()) {
            FoundHead::Whole(head, taken) => {
                self.front.clear();
                self.at = Stage::Words(head);
                let passed = taken - held;
                let is_within = passed <= piece.len();
                prove!(is_within);
                let behind = self.hear_words(head, &piece[passed..]);
                Heard {
                    used: passed + behind.used,
                    next: behind.next,
                }
            }
            FoundHead::More => Heard {
                used: count,
                next: Next::More,
            },
            FoundHead::Fault => {
                self.at = Stage::Fault;
                Heard {
                    used: piece.len(),
                    next: Next::Fault,
                }
            }
        }
    }

    // Hears the words.
    fn hear_words(&mut self, head: Head, piece: &[u8]) -> Heard
        requires { self.old.at ≡ stage.Words head }
        ensures reads { ReadsOn (take result.used piece.now) self.old result.next self.new }
        ensures within { result.used ≤ length piece.now }
        ensures left { LeavesAt result.next result.used (length piece.now) self.new }
        ensures asked { asked_at self.new.at ≡ asked_from self.old.at }
    {
        let count = piece.len().min(head.words - self.front.len());
        extend(&mut self.front, &piece[..count]);
        if self.front.len() < head.words {
            return Heard {
                used: count,
                next: Next::More,
            };
        }
        if !are_words(self.front.as_slice()) {
            self.at = Stage::Fault;
            return Heard {
                used: piece.len(),
                next: Next::Fault,
            };
        }
        self.at = Stage::Asked(head.input);
        Heard {
            used: count,
            next: Next::Words,
        }
    }

    // Hears the input.
    fn hear_input(&mut self, size: InputSize, most: usize, came: usize, piece: &[u8]) -> Heard
        requires { self.old.at ≡ stage.Input size most came }
        ensures reads { ReadsOn (take result.used piece.now) self.old result.next self.new }
        ensures within { result.used ≤ length piece.now }
        ensures left { LeavesAt result.next result.used (length piece.now) self.new }
        ensures asked { asked_at self.new.at ≡ asked_from self.old.at }
    {
        let room = most - self.kept.len();
        let count = piece.len().min(size.len() - came);
        let wanted = count.min(room);
        extend(&mut self.kept, &piece[..wanted]);
        if came + count < size.len() {
            self.at = Stage::Input(size, most, came + count);
            return Heard {
                used: count,
                next: Next::More,
            };
        }
        self.at = Stage::Whole(size, most);
        Heard {
            used: count,
            next: Next::Whole,
        }
    }

    /// Says how many bytes of the input that comes are kept at most. It fails only for want of
    /// memory, and then the reader is as before: less may be asked for, and to keep none of it never
    /// fails.
    pub fn keep(&mut self, most: usize) -> Result<(), AllocError>
        requires { IsAsked self.old.at }
        ensures kept { OnOk result (KeepsMost most self.old self.new) }
        ensures none { most ≡ 0 → IsOk result }
        ensures err { OnErr result (self.new ≡ self.old) }
    {
        let Stage::Asked(size) = self.at else {
            unreachable!()
        };
        let room = most.min(size.len());
        self.kept = Vec::with_capacity(self.alloc, room)?;
        self.at = Stage::Input(size, most, 0);
        Ok(())
    }

    /// The words of a request whose words are there, a zero byte behind each.
    pub fn words(&self) -> &[u8]
        ensures { result.now ≡ self.now.front }
    {
        self.front.as_slice()
    }

    /// What is kept of the input.
    pub fn kept(&self) -> &[u8]
        ensures { result.now ≡ self.now.kept }
    {
        self.kept.as_slice()
    }

    /// What the head says of the input, once the words are there.
    pub fn input_size(&self) -> Option<InputSize>
        ensures { result ≡ size_at self.now.at }
    {
        match self.at {
            Stage::Asked(size) | Stage::Input(size, _, _) | Stage::Whole(size, _) => Some(size),
            Stage::Head | Stage::Words(_) | Stage::Fault => None,
        }
    }

    /// How many bytes of the input were asked for at most, inside it or behind it.
    pub fn asked(&self) -> Option<usize>
        ensures { result ≡ asked_at self.now.at }
    {
        match self.at {
            Stage::Input(_, most, _) | Stage::Whole(_, most) => Some(most),
            Stage::Head | Stage::Words(_) | Stage::Asked(_) | Stage::Fault => None,
        }
    }

    /// How the stream ends, if nothing more comes. It takes no memory.
    pub fn end(&self) -> Ending
        requires { Awaits self.now }
        ensures ending { (held : List ℕ) → StandsFor held self.now → result ≡ ending held }
        ensures nothing { (held : List ℕ) → StandsFor held self.now → requests held ≡ [] }
    {
        end_at(self.at, self.front.is_empty())
    }
}

// How a stream ends where a reader stands so.
fn end_at(at: Stage, is_empty: bool) -> Ending
    ensures { result ≡ end_at at is_empty }
{
    match at {
        Stage::Head if is_empty => Ending::Clean,
        Stage::Whole(_, _) => Ending::Clean,
        Stage::Fault => Ending::Fault,
        _ => Ending::Inside,
    }
}

// Appends some bytes, for which there is room.
fn extend(to: &mut Vec<u8>, bytes: &[u8])
    requires { vec_len to.old + length bytes.now ≤ vec_capacity to.old }
    ensures items { to.new.items ≡ to.old.items ++ bytes.now }
    ensures len { vec_len to.new ≡ vec_len to.old + length bytes.now }
    ensures room { vec_capacity to.old ≤ vec_capacity to.new }
{
    match to.extend_from_slice(bytes) {
        Ok(()) => {}
        Err(_) => unreachable!(),
    }
}

// Whether the last byte is zero, where there is one.
fn are_words(words: &[u8]) -> bool
    ensures { result ≡ are_words words.now }
{
    words.is_empty() || words[words.len() - 1] == 0
}
