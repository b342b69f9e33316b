//! What was delivered is brought to where it belongs for a contact.
ghost use Rattle.std.specs.Prelude.{◌≡◌, ◌≤◌, ◌<◌, ℕ, Some, false, true, slice_get, OnOk};
ghost use Rattle.journal_audit.specs.Changes.{BecomesFacts};
ghost use Rattle.journal_audit.specs.Plain.{IsPlainSound, facts_of};
ghost use Rattle.journal_audit.specs.Bringing.{IsBroughtAt, Places};
ghost use Rattle.journal_audit.specs.Early.{goes_early};
ghost use Rattle.sync_rules.specs.Facts.{row_at};
ghost use Rattle.journal_audit.specs.declared.messages.Line.{Line};

use crate::due::may_go;
use crate::early::Mark;
use crate::facts::PlainFacts;
use crate::time::Time;
use std::alloc::{AllocError, Global};
use sync_ids::MessageId;
use sync_rules::{Entry, Out};

impl PlainFacts {
    /// Whether all that was delivered stands in the sets of the contact, and each alarm is yet to come.
    pub(crate) fn is_brought(&self, contact: u8, now: u64) -> bool
        ensures { result ≡ true → IsBroughtAt self.now contact now }
    {
        self.ready.cursors.from(contact) == self.messages.delivered().len()
            && self.ready.alarms.are_ahead(contact, now)
    }

    // Puts the message of this number where it belongs for the contact.
    fn place(&mut self, contact: u8, n: u32) -> Result<(), AllocError>
        requires { IsPlainSound self.old }
        ensures { OnOk result (Places self.old self.new contact n) }
    {
        let Some(line) = self.messages.get(n) else {
            return Ok(());
        };
        let row = self.rows.row(contact, &line.id);
        let goes = may_go(&self.levels, contact, line, row);
        self.ready.place(contact, n, goes, row)?;
        Ok(())
    }

    // The time of the contact is this one; where the clock went back all begins anew.
    fn turn_to(&mut self, contact: u8, now: u64)
        requires { IsPlainSound self.old }
        ensures { BecomesFacts self.old self.new (facts_of self.old) }
    {
        let was = self.ready.clocks.of(contact);
        self.ready.clocks.set(contact, now);
        if now < was {
            self.ready.cursors.set_from(contact, 0);
        }
    }

    // An alarm of the contact rings.
    fn ring(&mut self, contact: u8, time: Time, n: u32) -> Result<(), AllocError>
        requires { IsPlainSound self.old }
        ensures { OnOk result (BecomesFacts self.old self.new (facts_of self.old)) }
    {
        self.ready.ring(contact, time, n)?;
        self.place(contact, n)?;
        Ok(())
    }

    // The alarms of the contact ring that have come.
    fn ring_all(&mut self, alloc: Global, contact: u8, now: u64) -> Result<(), AllocError>
        requires { IsPlainSound self.old }
        ensures { OnOk result (BecomesFacts self.old self.new (facts_of self.old)) }
    {
        let alarms = self.ready.alarms.up_to(alloc, contact, now)?;
        for (time, n) in alarms {
            self.ring(contact, time, n)?;
        }
        Ok(())
    }

    // One delivered message more is brought.
    fn bring(&mut self, contact: u8) -> Result<(), AllocError>
        requires { IsPlainSound self.old }
        ensures { OnOk result (BecomesFacts self.old self.new (facts_of self.old)) }
    {
        let from = self.ready.cursors.from(contact);
        if from >= self.messages.delivered().len() {
            return Ok(());
        }
        let Some(n) = self.messages.delivered_at(from) else {
            return Ok(());
        };
        self.place(contact, n)?;
        self.ready.cursors.set_from(contact, from + 1);
        Ok(())
    }

    // All delivered messages are brought.
    fn bring_all(&mut self, contact: u8) -> Result<(), AllocError>
        requires { IsPlainSound self.old }
        ensures { OnOk result (BecomesFacts self.old self.new (facts_of self.old)) }
    {
        for _ in self.ready.cursors.from(contact)..self.messages.delivered().len() {
            self.bring(contact)?;
        }
        Ok(())
    }

    // Whether the message of this number goes before its time, if it may be sent.
    fn is_early(&self, contact: u8, latency: u32, now: u64, n: u32) -> bool
        ensures { (l : Line) → slice_get self.now.messages.lines n ≡ Some l → result ≡ goes_early
            latency now (row_at self.now.rows contact l.id) }
    {
        let Some(line) = self.messages.get(n) else {
            return false;
        };
        self.rows.row(contact, &line.id).goes_early(latency, now)
    }

    // The first message from a number on that goes before its time, if it may be sent; or how many
    // there are.
    fn first_early(&self, contact: u8, latency: u32, now: u64, from: u32) -> u32
        ensures { (n : ℕ) → (l : Line) → from ≤ n → n < result → slice_get self.now.messages.lines n
            ≡ Some l → goes_early latency now (row_at self.now.rows contact l.id) ≡ false }
    {
        for n in from..self.messages.len() {
            if self.is_early(contact, latency, now, n) {
                return n;
            }
        }
        self.messages.len()
    }

    // Moves the mark of the contact on, by a session of this latency at this time.
    fn pass(&mut self, contact: u8, latency: u32, now: u64)
        requires { IsPlainSound self.old }
        ensures { BecomesFacts self.old self.new (facts_of self.old) }
    {
        let start = self.early.start(contact, latency, now);
        let from = self.first_early(contact, latency, now, start);
        self.early.set(contact, Mark { from, latency, now });
    }

    // The same where the time of a message has not come: only what goes before its time can be due
    // with it.
    fn pass_for(&mut self, session: u32, id: Option<MessageId>, now: u64)
        requires { IsPlainSound self.old }
        ensures { BecomesFacts self.old self.new (facts_of self.old) }
    {
        let Some(id) = id else {
            return;
        };
        let contact = self.contact_of(session);
        if self.rows.row(contact, &id).expiry.milliseconds() > now {
            let latency = self.latency_of(session);
            self.pass(contact, latency, now);
        }
    }

    // Brings what was delivered to where it belongs for a contact at a time.
    fn bring_to(&mut self, alloc: Global, contact: u8, now: u64) -> Result<(), AllocError>
        requires { IsPlainSound self.old }
        ensures { OnOk result (BecomesFacts self.old self.new (facts_of self.old)) }
    {
        self.turn_to(contact, now);
        self.ring_all(alloc, contact, now)?;
        self.bring_all(contact)?;
        Ok(())
    }

    /// Brings what was delivered to where it belongs for the contact of an output of messages or
    /// offers at its time, and moves the contact's mark on where it is needed, so that the test of
    /// the batch looks at nothing else. The facts stay.
    pub(crate) fn bring_for(&mut self, alloc: Global, entries: &[Entry]) -> Result<(), AllocError>
        requires { IsPlainSound self.old }
        ensures { OnOk result (BecomesFacts self.old self.new (facts_of self.old)) }
    {
        let Some(Entry::Out(session, now, what)) = entries.first() else {
            return Ok(());
        };
        let named = match what {
            Out::Send(id) => Some(*id),
            Out::Offers(ids) => ids.as_slice().first().copied(),
            Out::Acks(_) | Out::Requests(_) => return Ok(()),
        };
        let contact = self.contact_of(*session);
        self.bring_to(alloc, contact, *now)?;
        self.pass_for(*session, named, *now);
        Ok(())
    }
}
