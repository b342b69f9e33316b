//! Room for a batch, taken before the batch.
ghost use Rattle.std.specs.Prelude.{◌≡◌, ◌+◌, ◌^◌, ◌≤◌, min, length, IfOk, OnOk, OnErr};
ghost use Rattle.journal_state.specs.Room.{rows_room, wants_room, KeepsRoom};
ghost use Rattle.journal_state.specs.Taking.{contact_by, HasContactRoom, HasRoom};

use crate::state::State;
use std::alloc::AllocError;
use sync_rules::{Batch, Entry};

/// The rows that a contact is given at a time.
const STEP: u32 = 256;

/// The entries for which room is made at a time, or more where a batch has more.
const ENTRIES: usize = 64;

/// So many numbers, or up to the end of their step, so that the rows of a contact are not made one
/// at a time.
pub(crate) fn in_steps(numbers: u32) -> u32
    ensures { numbers ≤ result }
{
    numbers.saturating_add(STEP - 1 - numbers % STEP)
}

impl State {
    /// Makes room for the entries of a batch, so that they can be taken without memory; it never
    /// takes room away. It fails only for want of memory; no fact changes either way.
    pub fn reserve(&mut self, batch: &Batch) -> Result<(), AllocError>
        ensures ok { OnOk result (HasRoom self.new batch.now) }
        ensures facts { self.new.facts ≡ self.old.facts }
        ensures answers { self.new.answers ≡ self.old.answers }
        ensures kept { KeepsRoom self.old.room self.new.room }
    {
        let entries = batch.entries();
        let count = entries.len();
        if let Some(contact) = self.contact_by(&entries[0]) {
            self.reserve_rows(contact, count)?;
        }
        self.reserve_entries(count)
    }

    /// The contact whose rows and wanted ids this entry and those after it in its batch change.
    fn contact_by(&self, entry: &Entry) -> Option<u8>
        ensures { result ≡ contact_by self.now.facts.sessions entry.now }
    {
        match entry {
            Entry::Level(contact, _, _) => Some(*contact),
            Entry::Take(session, _) | Entry::Out(session, _, _) => {
                Some(self.sessions.find(*session)?.contact)
            }
            _ => None,
        }
    }

    /// Makes room for the contact's rows of all held messages and one more, and for so many wanted
    /// ids.
    pub(crate) fn reserve_rows(&mut self, contact: u8, wants: usize) -> Result<(), AllocError>
        ensures ok { OnOk result (HasContactRoom self.new wants contact) }
        ensures facts { self.new.facts ≡ self.old.facts }
        ensures answers { self.new.answers ≡ self.old.answers }
        ensures kept { KeepsRoom self.old.room self.new.room }
    {
        let numbers = in_steps(self.messages.len().saturating_add(1));
        self.retry.reserve(contact, numbers, wants)
    }

    /// Makes room for so many entries.
    pub(crate) fn reserve_entries(&mut self, entries: usize) -> Result<(), AllocError>
        ensures ok { OnOk result (entries ≤ self.new.room.entries) }
        ensures facts { self.new.facts ≡ self.old.facts }
        ensures answers { self.new.answers ≡ self.old.answers }
        ensures kept { KeepsRoom self.old.room self.new.room }
        ensures rows { self.new.room.rows ≡ self.old.room.rows }
        ensures wants { self.new.room.wants ≡ self.old.room.wants }
    {
        if entries <= self.space {
            return Ok(());
        }
        let room = entries.max(ENTRIES);
        self.table.reserve(room)?;
        self.messages.reserve(room)?;
        self.sessions.reserve(room)?;
        self.graph.reserve(room)?;
        self.shares.reserve(room)?;
        self.space = self.space.max(room);
        Ok(())
    }
}
