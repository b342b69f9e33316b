//! What the test of a batch asks of a journal.
ghost use Rattle.std.specs.Prelude.{◌≡◌, length, is_some, IfSome};
ghost use Rattle.std.specs.Option.{option_copied};
ghost use Rattle.sync_rules.specs.Facts.{group_at, session_at, takes_of};
ghost use Rattle.sync_rules.specs.Scans.{def_at};
ghost use Rattle.sync_rules.specs.Steps.{is_served};

use sync_ids::{GroupDef, GroupId, MessageId};
use sync_rules::{Session, Start, View};

/// What the test of a batch asks of a journal, beside what a session does.
pub trait JournalView: View {
    /// How the journal began.
    fn start(&self) -> Start
        ensures { result ≡ (Self.seen self.now).facts.start };

    /// The number of contacts.
    fn contacts(&self) -> u32
        ensures { result ≡ (Self.seen self.now).facts.contacts };

    /// The number of groups.
    fn groups(&self) -> u32
        ensures { result ≡ length (Self.seen self.now).facts.groups };

    /// Whether a group of this id is known.
    fn knows_group(&self, id: &GroupId) -> bool
        ensures { result ≡ is_some (group_at (Self.seen self.now).facts.groups id.now) };

    /// The definition of the group of this id. `None` comes exactly where no such group is known.
    fn def(&self, id: &GroupId) -> Option<&GroupDef>
        ensures { option_copied result ≡ def_at
            (group_at (Self.seen self.now).facts.groups id.now) };

    /// The number of sessions that have begun.
    fn begun(&self) -> u32
        ensures { result ≡ (Self.seen self.now).facts.begun };

    /// The session of this number. `None` comes exactly where there is none.
    fn session_of(&self, number: u32) -> Option<Session>
        ensures value { result ≡ session_at (Self.seen self.now).facts.sessions number }
        ensures numbered { IfSome result (λ s. s.number ≡ number) };

    /// How many records were taken on the session of this number; 0 where there is none.
    fn takes_on(&self, session: u32) -> u64
        ensures { result ≡ takes_of (Self.seen self.now).facts.takes session };

    /// Whether a dependency of a message of this group is served: it is held in the same group, and
    /// delivered.
    fn serves(&self, group: &GroupId, id: &MessageId) -> bool
        ensures { result ≡ is_served (Self.seen self.now).facts group.now id.now };
}
