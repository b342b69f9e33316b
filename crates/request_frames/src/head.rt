//! The line before a request, and the line before an answer.
ghost use Rattle.std.specs.Prelude.{◌≡◌, ◌==◌, ◌+◌, ◌<◌, ◌≤◌, ◌++◌, ◌∷◌, [], length, decimal};
ghost use Rattle.std.specs.Prelude.{IfSome, OnOk};
ghost use Rattle.std.specs.List.{position};
ghost use Rattle.arrayvec.specs.ArrayString.{array_string_len};
ghost use Rattle.request_frames.specs.Heads.{answer_line, both, head_in, head_on, head_text};
ghost use Rattle.request_frames.specs.Heads.{number_in, size_in, size_text};

use arrayvec::ArrayString;
use itoa::Buffer;
use std::alloc::{AllocError, Global};

/// How many bytes a head has at most, with its line feed.
pub const HEAD_LEN: usize = 16;

/// How many bytes the words of a request have at most, with a zero byte behind each.
pub const MAX_WORDS: usize = 32_768;

/// How many bytes the input of a request has at most.
pub const MAX_INPUT: usize = 268_435_456;

/// How many bytes the line before an answer has at most: three numbers, of 20 digits at most, with a
/// byte behind each.
pub const MAX_ANSWER_LINE: usize = 63;

/// The line before an answer. It lies in the value itself.
pub type AnswerLine = ArrayString<MAX_ANSWER_LINE>;

/// What a head says of the input.
#[derive(Clone, Copy, Debug, PartialEq, Eq)]
pub enum InputSize {
    /// It has so many bytes, which follow the words.
    Bytes(usize),
    /// Its read failed, and no bytes follow.
    Failed,
    /// It had more bytes than a request can bring, and none follow.
    Long,
}

impl InputSize {
    ghost use Rattle.request_frames.specs.Heads.{length_of};

    /// How many bytes follow the words.
    pub fn len(self) -> usize
        ensures { result ≡ length_of self }
    {
        match self {
            InputSize::Bytes(count) => count,
            InputSize::Failed | InputSize::Long => 0,
        }
    }
}

/// The head of a request: how many bytes its words have, and what it says of its input.
#[derive(Clone, Copy, Debug, PartialEq, Eq)]
pub struct Head {
    /// How many bytes the words have.
    pub words: usize,
    /// What is said of the input.
    pub input: InputSize,
}

/// What stands at the front of some bytes.
#[derive(Clone, Copy, Debug, PartialEq, Eq)]
pub enum FoundHead {
    /// A head, which takes so many bytes.
    Whole(Head, usize),
    /// Nothing is decided before more bytes come.
    More,
    /// No head.
    Fault,
}

/// What stands at the front of these bytes. It takes no memory.
pub fn head_of(bytes: &[u8]) -> FoundHead
    ensures { result ≡ head_in bytes.now }
{
    let front = &bytes[..bytes.len().min(HEAD_LEN)];
    match place_of(b'\n', front) {
        Some(at) => match head_on(&bytes[..at]) {
            Some(head) => FoundHead::Whole(head, at + 1),
            None => FoundHead::Fault,
        },
        None => {
            if bytes.len() < HEAD_LEN {
                FoundHead::More
            } else {
                FoundHead::Fault
            }
        }
    }
}

// The head that a line is, but for its line feed.
fn head_on(line: &[u8]) -> Option<Head>
    ensures { result ≡ head_on line.now }
{
    match place_of(b' ', line) {
        Some(at) => head_made(&line[..at], &line[at + 1..]),
        None => None,
    }
}

// The head that is made of two words.
fn head_made(words: &[u8], input: &[u8]) -> Option<Head>
    ensures { result ≡ both (number_in MAX_WORDS words.now) (size_in input.now) }
{
    match number(words, MAX_WORDS) {
        Some(words) => match size(input) {
            Some(input) => Some(Head { words, input }),
            None => None,
        },
        None => None,
    }
}

// The place of the first of these bytes that is this one.
fn place_of(wanted: u8, bytes: &[u8]) -> Option<usize>
    ensures place { result ≡ position (λ b. b == wanted) bytes.now }
    ensures within { IfSome result (λ at. at < length bytes.now) }
{
    bytes.iter().position(|byte| *byte == wanted)
}

fn size(word: &[u8]) -> Option<InputSize>
    ensures { result ≡ size_in word.now }
{
    if word == b"failed".as_slice() {
        return Some(InputSize::Failed);
    }
    if word == b"long".as_slice() {
        return Some(InputSize::Long);
    }
    match number(word, MAX_INPUT) {
        Some(count) => Some(InputSize::Bytes(count)),
        None => None,
    }
}

// The number up to `most` whose decimal spelling a word is.
fn number(word: &[u8], most: usize) -> Option<usize>
    ensures { result ≡ number_in most word.now }
{
    match std::str::from_utf8(word) {
        Ok(text) => spelled_number(text, most),
        Err(_) => None,
    }
}

fn spelled_number(word: &str, most: usize) -> Option<usize>
    ensures { result ≡ number_in most word.now }
{
    match word.parse::<usize>() {
        Ok(number) => {
            let mut buffer = Buffer::new();
            let is_spelled = buffer.format(number) == word;
            (is_spelled && number <= most).then_some(number)
        }
        Err(_) => None,
    }
}

/// Appends the line before a request. It fails only for want of memory.
pub fn append_head(head: &Head, to: &mut Vec<u8>) -> Result<(), AllocError>
    ensures { OnOk result (to.new.items ≡ to.old.items ++ head_text head.now) }
{
    append_number(head.words, to)?;
    to.extend_from_slice(b" ")?;
    append_size(head.input, to)?;
    to.extend_from_slice(b"\n")
}

fn append_size(size: InputSize, to: &mut Vec<u8>) -> Result<(), AllocError>
    ensures { OnOk result (to.new.items ≡ to.old.items ++ size_text size) }
{
    match size {
        InputSize::Bytes(count) => append_number(count, to),
        InputSize::Failed => to.extend_from_slice(b"failed"),
        InputSize::Long => to.extend_from_slice(b"long"),
    }
}

fn append_number(number: usize, to: &mut Vec<u8>) -> Result<(), AllocError>
    ensures { OnOk result (to.new.items ≡ to.old.items ++ decimal number) }
{
    let mut buffer = Buffer::new();
    to.extend_from_slice(buffer.format(number).as_bytes())
}

// Adds a number in digits, and a byte behind it.
fn add_number(number: usize, behind: &'static str, to: &mut AnswerLine)
    requires one { length behind.now ≡ 1 }
    requires room { array_string_len to.old + 21 ≤ MAX_ANSWER_LINE }
    ensures bytes { to.new.bytes ≡ to.old.bytes ++ (decimal number ++ behind.now) }
    ensures short { array_string_len to.new ≤ array_string_len to.old + 21 }
{
    let mut digits = Buffer::new();
    to.push_str(digits.format(number));
    to.push_str(behind);
}

/// The line before an answer: its status, and how many bytes its output and its error output get,
/// which follow in this order. It takes no memory.
pub fn answer_line(status: u8, out: usize, error: usize) -> AnswerLine
    ensures { result.bytes ≡ answer_line status out error }
{
    let mut line = AnswerLine::new();
    add_number(status as usize, " ", &mut line);
    add_number(out, " ", &mut line);
    add_number(error, "\n", &mut line);
    line
}
