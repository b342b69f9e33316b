//! What is wanted from a contact.
ghost use Rattle.std.specs.Prelude.{◌≡◌, ◌+◌, ◌-◌, ◌^◌, ◌<◌, ◌≤◌, length};
ghost use Rattle.sync_rules.specs.Facts.{with_want, without_each};
ghost use Rattle.retry_table.specs.Table.{wants_of};
ghost use Rattle.journal_state.specs.Unwanted.{ChangesIds};
ghost use Rattle.journal_state.specs.Room.{wants_room};
ghost use Rattle.std.specs.FinMap as fin_map;
ghost use Rattle.sync_rules.specs.Facts.{is_held, wanted_from};
ghost use Rattle.journal_state.specs.Taking.{SpendsRoom};

use crate::state::State;
use retry_table::Retry;
use sync_ids::MessageId;
use sync_rules::View;

/// Puts an id at the end of those wanted from the contact, unless its message is held or the id is
/// among them.
fn want_id(retry: &mut Retry, contact: u8, id: MessageId, held: bool)
    requires room { 1 ≤ (wants_of retry.old contact).room }
    requires few { length (wants_of retry.old contact).ids < 2 ^ 32 - 1 }
    ensures { ChangesIds retry.old retry.new contact
        (with_want held (wants_of retry.old contact).ids id) }
{
    if !held && !retry.is_wanted(contact, &id) {
        retry.want(contact, id);
    }
}

/// Takes these ids out of those wanted from the contact.
fn unwant_ids(retry: &mut Retry, contact: u8, ids: &[MessageId])
    ensures { ChangesIds retry.old retry.new contact
        (without_each ids.now (wants_of retry.old contact).ids) }
{
    for id in ids {
        retry.unwant(contact, id);
    }
}

impl State {
    /// An id was offered by a contact that is known.
    pub(crate) fn want(&mut self, contact: u8, id: MessageId)
        requires known { contact < self.old.facts.contacts }
        requires room { 1 ≤ wants_room self.old.room contact }
        requires few { length (wanted_from self.old.facts.wanted contact) < 2 ^ 32 - 1 }
        ensures facts { self.new.facts ≡ record self.old.facts {
          wanted = fin_map.insert self.old.facts.wanted contact
              (with_want (is_held self.old.facts.held id)
              (wanted_from self.old.facts.wanted contact) id);
        } }
        ensures answers { self.new.answers ≡ self.old.answers }
        ensures room { SpendsRoom self.old.room self.new.room }
    {
        let held = self.find(&id).is_some();
        want_id(&mut self.retry, contact, id, held);
    }

    /// These ids were requested from a contact that is known.
    pub(crate) fn unwant(&mut self, contact: u8, ids: &[MessageId])
        requires known { contact < self.old.facts.contacts }
        ensures facts { self.new.facts ≡ record self.old.facts {
          wanted = fin_map.insert self.old.facts.wanted contact
              (without_each ids.now (wanted_from self.old.facts.wanted contact));
        } }
        ensures answers { self.new.answers ≡ self.old.answers }
        ensures room { SpendsRoom self.old.room self.new.room }
    {
        unwant_ids(&mut self.retry, contact, ids);
    }
}
