//! A group's level for a contact is set.
ghost use Rattle.std.specs.Prelude.{◌≡◌, ◌≤◌};
ghost use Rattle.sync_rules.specs.declared.limits.TheConstants.{MAX_CONTACTS};
ghost use Rattle.sync_rules.specs.Facts.{is_level_shared};
ghost use Rattle.journal_state.specs.Taking.{CanTake, TakesButBeginning};

use crate::state::State;
use retry_table::Retry;
use sync_ids::GroupId;
use sync_rules::{Entry, Level};

fn is_shared(level: Level) -> bool
    ensures { result ≡ is_level_shared level }
{
    match level {
        Level::Shared => true,
        Level::Invisible | Level::Visible => false,
    }
}

/// Brings the queues of each of that many contacts in order. Nothing that is seen changes.
fn bring_each(retry: &mut Retry, contacts: u32)
    requires { contacts ≤ MAX_CONTACTS }
    ensures { retry.new ≡ retry.old }
{
    for contact in 0..contacts {
        retry.bring(contact as u8);
    }
}

impl State {
    /// Brings the queues of the contact in order for which a batch has an output, since its test
    /// asks what is due. Nothing that is seen changes.
    pub(crate) fn bring_for(&mut self, entries: &[Entry])
        ensures { self.new ≡ self.old }
    {
        let Some(Entry::Out(session, _, _)) = entries.first() else {
            return;
        };
        let Some(on) = self.sessions.find(*session) else {
            return;
        };
        self.retry.bring(on.contact);
    }

    /// Brings the queues of each contact in order. Nothing that is seen changes.
    pub(crate) fn bring_all(&mut self)
        ensures { self.new ≡ self.old }
    {
        bring_each(&mut self.retry, self.table.contacts());
    }

    /// A group's level for a contact that has room for the rows of all held messages. It costs a
    /// look-up and a note: the contact's queues are brought in order before the next question.
    pub(crate) fn take_level(&mut self, contact: u8, group: GroupId, level: Level)
        requires { CanTake self.old (Entry.Level contact group level) }
        ensures { TakesButBeginning self.old self.new (Entry.Level contact group level) }
    {
        let number = self.table.group(&group).unwrap();
        self.space -= 1;
        self.table.apply(&Entry::Level(contact, group, level));
        self.retry.set_group(contact, number, is_shared(level));
    }
}
