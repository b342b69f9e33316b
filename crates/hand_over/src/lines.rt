//! The lines that a node sends: before an answer, and before a notice.

/// How many bytes such a line has at most, without its line feed.
pub const MOST_LINE: usize = 62;

/// A line of a node, and how many bytes follow it.
#[derive(Clone, Copy, Debug, PartialEq, Eq)]
pub enum Line {
    /// An answer: its status, and how many bytes the output and the error output get.
    Answer(u8, u64, u64),
    /// Lines of delivered messages, of so many bytes.
    Deliver(u64),
    /// The node ends in order.
    Quit,
    /// Another notice, of so many bytes.
    Other(u64),
}

/// The line of these bytes, without its line feed, if it is one.
pub fn line_of(bytes: &[u8]) -> Option<Line> {
    let Ok(text) = std::str::from_utf8(bytes) else {
        return None;
    };
    let (first, rest) = text.split_once(' ')?;
    let (second, third) = rest.split_once(' ')?;
    let number = second.parse::<u64>().ok()?;
    let len = third.parse::<u64>().ok()?;
    match first {
        "deliver" => Some(Line::Deliver(len)),
        "quit" => Some(Line::Quit),
        word => match word.parse::<u8>() {
            Ok(status) => Some(Line::Answer(status, number, len)),
            Err(_) => is_word(word.as_bytes()).then_some(Line::Other(len)),
        },
    }
}

// Whether a notice may have this word.
fn is_word(word: &[u8]) -> bool {
    !word.is_empty() && word.iter().all(|byte| byte.is_ascii_lowercase())
}
