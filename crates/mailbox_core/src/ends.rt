//! How the reading of a file ends.
ghost use Rattle.std.specs.Prelude.{◌≡◌};
ghost use Rattle.mailbox_core.specs.Files.{ends_as};

use record_stream::{Ending, Reason};

/// How the reading of a file ends. A place is a number of bytes from the start of the file; one past
/// 2^64 - 1 counts as 2^64 - 1.
#[derive(Clone, Copy, Debug, PartialEq, Eq)]
pub enum BoxEnding {
    /// Behind a whole record, or with no byte at all.
    Clean,
    /// Inside a record that begins at this place.
    Inside(u64),
    /// At this place something begins that is no record.
    Bad(u64, Reason),
    /// At this place stands a VERSIONS without this node's version. It is the last record taken.
    NoVersion(u64),
}

/// What was read of a file.
#[derive(Clone, Copy, Debug, PartialEq, Eq)]
pub struct BoxEnd {
    /// How many records were taken.
    pub taken: u64,
    /// How the reading ended.
    pub ending: BoxEnding,
}

/// The end of a stream as the end of a reading.
pub(crate) fn ends_as(ending: Ending) -> BoxEnding
    ensures { result ≡ ends_as ending }
{
    match ending {
        Ending::Clean => BoxEnding::Clean,
        Ending::Inside(place) => BoxEnding::Inside(place),
        Ending::Bad(place, reason) => BoxEnding::Bad(place, reason),
    }
}
