//! How the journal began.
ghost use Rattle.std.specs.Prelude.{◌≡◌};
ghost use Rattle.sync_rules.specs.Allows.{is_opening};
ghost use Rattle.sync_rules.specs.Facts.{start_after};
ghost use Rattle.journal_state.specs.Taking.{noted};

use crate::state::State;
use sync_rules::{Entry, Start};

/// How a journal began that has this entry alone.
fn first_start(entry: &Entry) -> Start
    ensures { result ≡ start_after Start.Empty entry.now }
{
    match entry {
        Entry::Brief(_) => Start::Opening,
        _ => Start::Going,
    }
}

/// How a journal began that was a brief account so far and got this entry.
fn later_start(entry: &Entry) -> Start
    ensures { result ≡ start_after Start.Opening entry.now }
{
    match entry {
        Entry::Contact(_) | Entry::Group(_) | Entry::Level(_, _, _) => Start::Opening,
        Entry::Judged(_) | Entry::Deliver(_) | Entry::Invalid(_) => Start::Opening,
        Entry::Kept(_, _) | Entry::Tried(_) | Entry::Want(_, _) => Start::Opening,
        _ => Start::Going,
    }
}

/// How a journal began that got this entry.
fn start_after(start: Start, entry: &Entry) -> Start
    ensures { result ≡ start_after start entry.now }
{
    match start {
        Start::Empty => first_start(entry),
        Start::Opening => later_start(entry),
        Start::Going => Start::Going,
    }
}

/// Whether a journal is a brief account so far.
pub(crate) fn is_opening(start: Start) -> bool
    ensures { result ≡ is_opening start }
{
    match start {
        Start::Opening => true,
        Start::Empty | Start::Going => false,
    }
}

impl State {
    /// Notes how the journal began, once it has this entry.
    pub(crate) fn note(&mut self, entry: &Entry)
        ensures { self.new ≡ noted self.old entry.now }
    {
        self.start = start_after(self.start, entry);
    }
}
