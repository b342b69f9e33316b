//! What is noted of a held message for a contact.
ghost use Rattle.std.specs.Prelude.{◌≡◌, ◌<◌, ◌≤◌, true, length};
ghost use Rattle.std.specs.List.{list_all};
ghost use Rattle.retry_table.specs.Table.{rows_of, kept_at, with_row, KeepsRow};
ghost use Rattle.sync_rules.specs.Facts.{change_row, change_rows, is_held};
ghost use Rattle.journal_state.specs.Marks.{marked};
ghost use Rattle.journal_state.specs.Room.{rows_room, KeepsRoom};
ghost use Rattle.journal_state.specs.Whole.{id_at};

use crate::state::State;
use retry_table::Retry;
use sync_ids::MessageId;
use sync_rules::View;

/// What is noted of a held message for a contact. Times and latencies are in milliseconds.
#[derive(Clone, Copy)]
pub(crate) enum Mark {
    /// The contact has the message and waits for our acknowledgement.
    Heard,
    /// The contact has the message.
    Seen,
    /// The contact asked for the message.
    Asked,
    /// We acknowledged the message.
    Acked,
    /// The message was offered at this time, on a session of this latency.
    Offered(u64, u32),
    /// The message was sent at this time, on a session of this latency.
    Sent(u64, u32),
}

/// Notes it in the row of the message of this number.
pub(crate) fn mark_row(retry: &mut Retry, contact: u8, n: u32, mark: Mark)
    requires { n < length (rows_of retry.old contact) }
    ensures { KeepsRow retry.old retry.new contact n
        (with_row (marked mark) (kept_at retry.old contact n)) }
{
    match mark {
        Mark::Heard => retry.hear(contact, n),
        Mark::Seen => retry.saw(contact, n),
        Mark::Asked => retry.ask(contact, n),
        Mark::Acked => retry.paid(contact, n),
        Mark::Offered(now, latency) => retry.offered(contact, n, now, latency),
        Mark::Sent(now, latency) => retry.sent(contact, n, now, latency),
    }
}

impl State {
    /// Notes it of the held message of this number, for a contact that has room for the rows of all
    /// held messages.
    pub(crate) fn mark_at(&mut self, contact: u8, n: u32, mark: Mark)
        requires held { n < length self.old.facts.held }
        requires room { length self.old.facts.held ≤ rows_room self.old.room contact }
        ensures facts { self.new.facts ≡ record self.old.facts {
          rows = change_row self.old.facts.rows contact (id_at self.old.facts.held n)
              (marked mark);
        } }
        ensures answers { self.new.answers ≡ self.old.answers }
        ensures room { KeepsRoom self.old.room self.new.room }
    {
        mark_row(&mut self.retry, contact, n, mark);
    }

    /// Notes it of a held message, for a contact that has room for the rows of all held messages.
    pub(crate) fn mark(&mut self, contact: u8, id: &MessageId, mark: Mark)
        requires held { is_held self.old.facts.held id.now ≡ true }
        requires room { length self.old.facts.held ≤ rows_room self.old.room contact }
        ensures facts { self.new.facts ≡ record
            self.old.facts { rows = change_row self.old.facts.rows contact id.now (marked mark) } }
        ensures answers { self.new.answers ≡ self.old.answers }
        ensures room { KeepsRoom self.old.room self.new.room }
    {
        let number = self.find(id).unwrap();
        self.mark_at(contact, number, mark);
    }

    /// Notes it of each of these held messages, one after the other.
    pub(crate) fn mark_all(&mut self, contact: u8, ids: &[MessageId], mark: Mark)
        requires held { list_all (is_held self.old.facts.held) ids.now ≡ true }
        requires room { length self.old.facts.held ≤ rows_room self.old.room contact }
        ensures facts { self.new.facts ≡ record
            self.old.facts {
              rows = change_rows self.old.facts.rows contact ids.now
                  (marked mark);
            } }
        ensures answers { self.new.answers ≡ self.old.answers }
        ensures room { KeepsRoom self.old.room self.new.room }
    {
        for id in ids {
            self.mark(contact, id, mark);
        }
    }
}
