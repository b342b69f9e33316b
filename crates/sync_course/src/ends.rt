//! How a link stands, and when a run is over.
ghost use Rattle.std.specs.Prelude.{◌≡◌};
ghost use Rattle.sync_course.specs.Turns.{over_by};

use record_grammar::Reason;

/// How a link stands. It is closed where it neither is Going nor Clean: nothing more is heard from
/// it or sent to it.
#[derive(Clone, Copy, Debug, PartialEq, Eq)]
pub enum LinkEnd {
    /// It is still asked for bytes.
    Going,
    /// Its input ended behind a whole record; it is not asked any more, and still sent to.
    Clean,
    /// Another link to the same contact is kept.
    Redundant,
    /// Its input ended inside a record that begins at this place.
    Inside(u64),
    /// At this place of its input something begins that is no record.
    Bad(u64, Reason),
    /// At this place of its input stands a VERSIONS without this node's version.
    NoVersion(u64),
    /// A call of it failed.
    Failed,
}

/// Whether a run is over, of whose last turns so many were all still, while some links are asked or
/// none: it is asked to end behind so many quiet turns.
pub fn is_over(quiet: u64, still: u64, some_asked: bool) -> bool
    ensures { result ≡ over_by quiet still some_asked }
{
    still > 0 && (!some_asked || quiet <= still)
}
