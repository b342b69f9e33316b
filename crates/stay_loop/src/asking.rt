//! What a request asks of a node that stays.
use commands::WordsFault;
use node_service::words_of;
use stay_words::{Stay, read_stay};
use std::alloc::Global;
use sync_words::Outcome;

/// What a request asks for.
#[derive(Debug, Drop)]
pub enum Asking {
    /// To be told the lines of the inbox from this place on.
    Watch(u32),
    /// What the node that is asked answers.
    Node,
    /// Something that comes to this, and nothing is done.
    Nothing(Outcome),
}

/// What the words of these bytes ask for.
pub fn asked_by(alloc: Global, bytes: &[u8]) -> Asking {
    let Ok(words) = words_of(alloc, bytes) else {
        return Asking::Nothing(Outcome::Memory);
    };
    match read_stay(alloc, words.as_slice()) {
        Ok(None) => Asking::Node,
        Ok(Some(Stay::Watch(from))) => Asking::Watch(from),
        Ok(Some(Stay::Serve(_, _))) => Asking::Nothing(Outcome::NodeHolds),
        Err(WordsFault::Usage(place)) => Asking::Nothing(Outcome::Usage(place)),
        Err(WordsFault::Memory) => Asking::Nothing(Outcome::Memory),
    }
}
