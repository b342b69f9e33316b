//! Requests and answers as they stand in a stream of bytes.
//!
//! - `head`: the line before a request, as it is read and spelled, and the line before an answer.
//! - `reader`: a reader of a stream of requests that comes in pieces, which keeps of an input what
//!   it is asked to.
//! - `laws`: what holds of all requests and answers, and of all readings of a stream in pieces.
#![tactic(auto)]

mod head;
mod laws;
mod reader;

pub use head::{
    AnswerLine, FoundHead, HEAD_LEN, Head, InputSize, MAX_ANSWER_LINE, MAX_INPUT, MAX_WORDS,
    answer_line, append_head, head_of,
};
pub use laws::{
    answers_read_back, heads_read_back, keeping_goes_on, readings_are_whole, readings_begin,
    readings_go_on, requests_read_back,
};
pub use reader::{Ending, Heard, Next, Reader, Stage};

#[cfg(test)]
mod tests;
