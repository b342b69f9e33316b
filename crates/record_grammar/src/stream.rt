//! A stream of records.
ghost use Rattle.std.specs.Prelude.{◌≡◌, []};
ghost use Rattle.record_grammar.specs.Stream.{IsRest, ending, items};

use crate::front::{Front, Reason, front_of};
use sync_ids::Record;

/// A record or a skipped record of a stream, with the place where it begins. A place past 2^64 - 1
/// counts as 2^64 - 1.
#[derive(Debug, Drop)]
pub enum Item {
    /// A record.
    One(u64, Record),
    /// A record of another type: its byte of type, and its payload's length.
    Skipped(u64, u8, u64),
}

/// How a stream ends.
#[derive(Clone, Copy, Debug, PartialEq, Eq)]
pub enum Ending {
    /// Behind a whole record, or with no byte at all.
    Clean,
    /// Inside a record that begins at this place.
    Inside(u64),
    /// At this place something begins that is no record.
    Bad(u64, Reason),
}

/// How a stream ends of which these bytes are the rest: no whole record and no skipped one stands
/// at their front. It takes no memory.
pub fn ending_of(place: u64, bytes: &[u8]) -> Ending
    requires { IsRest bytes.now }
    ensures ending { result ≡ ending place bytes.now }
    ensures nothing { items place bytes.now ≡ [] }
{
    if bytes.is_empty() {
        return Ending::Clean;
    }
    match front_of(bytes) {
        Front::Bad(reason) => Ending::Bad(place, reason),
        _ => Ending::Inside(place),
    }
}
