//! An entry that brings no message is taken: a contact, a group, a session, a record, the beginning
//! of a brief account.
ghost use Rattle.std.specs.Prelude.{◌≡◌, ◌≢◌, ◌^◌, ◌<◌, ◌≤◌, true, length, None, Some, is_some};
ghost use Rattle.sync_rules.specs.Facts.{session_at};
ghost use Rattle.journal_state.specs.Taking.{CanTake, TakesButBeginning};

use crate::state::State;
use sync_ids::GroupDef;
use sync_rules::{Entry, Session, Start};

impl State {
    /// One more contact, which has the next number.
    pub(crate) fn take_contact(&mut self, contact: u8)
        requires { CanTake self.old (Entry.Contact contact) }
        ensures { TakesButBeginning self.old self.new (Entry.Contact contact) }
    {
        self.space -= 1;
        self.table.apply(&Entry::Contact(contact));
    }

    /// One more group, whose id is new.
    pub(crate) fn take_group(&mut self, def: GroupDef)
        requires { CanTake self.old (Entry.Group def) }
        ensures { TakesButBeginning self.old self.new (Entry.Group def) }
    {
        self.space -= 1;
        self.table.add_group(def);
    }

    /// One more session, which has the next number, with a contact that is known.
    pub(crate) fn take_session(&mut self, session: Session)
        requires can { CanTake self.old (Entry.Session session) }
        requires started { self.old.facts.start ≢ Start.Empty }
        ensures { TakesButBeginning self.old self.new (Entry.Session session) }
    {
        self.space -= 1;
        self.sessions.begin(&session);
    }

    /// One more record on a session.
    pub(crate) fn take_record(&mut self, session: u32, k: u64)
        requires { CanTake self.old (Entry.Take session k) }
        ensures { TakesButBeginning self.old self.new (Entry.Take session k) }
    {
        self.space -= 1;
        self.sessions.take(session);
    }

    /// A brief account begins: so many sessions have begun and are dropped, and none has begun
    /// before.
    pub(crate) fn take_brief(&mut self, sessions: u32)
        requires can { CanTake self.old (Entry.Brief sessions) }
        requires started { self.old.facts.start ≢ Start.Empty }
        ensures { TakesButBeginning self.old self.new (Entry.Brief sessions) }
    {
        self.sessions.skip(sessions);
    }

    /// The session of this number, which is there.
    pub(crate) fn known_session(&self, number: u32) -> Session
        requires { is_some (session_at self.now.facts.sessions number) ≡ true }
        ensures found { session_at self.now.facts.sessions number ≡ Some result }
        ensures known { result.contact < self.now.facts.contacts }
    {
        self.sessions.find(number).unwrap()
    }
}
