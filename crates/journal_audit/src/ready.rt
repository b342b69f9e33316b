//! Where the messages stand that may go to each contact.
ghost use Rattle.std.specs.Prelude.{◌≡◌, ℕ, IfOk, OnOk};
ghost use Rattle.journal_audit.specs.Numbers.{from_of};
ghost use Rattle.journal_audit.specs.Standing.{IsPlaced, StandsOn};

use crate::alarms::Alarms;
use crate::clocks::Clocks;
use crate::cursors::Cursors;
use crate::numbers::ByContact;
use crate::rows::ContactRow;
use crate::time::Time;
use std::alloc::{AllocError, Global};

/// For each contact the messages that it asked for, those whose time has come, and an alarm for each
/// whose time is to come: of the delivered ones as many as its cursor says. Each set may have too
/// many and never too few.
#[derive(Drop)]
pub(crate) struct Ready {
    /// The messages that the contact asked for.
    pub(crate) asked: ByContact,
    /// Those whose time has come.
    pub(crate) awake: ByContact,
    /// When the time of others comes.
    pub(crate) alarms: Alarms,
    /// How far the delivered messages stand in these.
    pub(crate) cursors: Cursors,
    /// For which time.
    pub(crate) clocks: Clocks,
}

impl Ready {
    /// Nothing stands anywhere.
    pub(crate) fn new(alloc: Global) -> Result<Ready, AllocError>
        ensures { IfOk result (λ ready. (contact : ℕ) → from_of ready.cursors contact ≡ 0) }
    {
        Ok(Ready {
            asked: ByContact::new(alloc)?,
            awake: ByContact::new(alloc)?,
            alarms: Alarms::new(alloc)?,
            cursors: Cursors::new(alloc)?,
            clocks: Clocks::new(alloc)?,
        })
    }

    /// Puts a message of this row where it belongs, at the time of the contact's clock: nowhere where
    /// it can't go to the contact. After want of memory nothing is said.
    pub(crate) fn place(
        &mut self,
        contact: u8,
        n: u32,
        goes: bool,
        row: ContactRow,
    ) -> Result<(), AllocError>
        ensures { OnOk result (IsPlaced self.old self.new contact n goes row) }
    {
        let awake = goes && row.expiry.milliseconds() <= self.clocks.of(contact);
        self.asked.mark(contact, n, goes && row.asked)?;
        self.awake.mark(contact, n, awake)?;
        self.alarms.add_if(goes && !awake, contact, row.expiry, n)?;
        Ok(())
    }

    /// The same of a message whose row had this time before.
    pub(crate) fn replace(
        &mut self,
        contact: u8,
        n: u32,
        was: Time,
        goes: bool,
        row: ContactRow,
    ) -> Result<(), AllocError>
        ensures { OnOk result (IsPlaced self.old self.new contact n goes row) }
    {
        self.alarms.remove(contact, was, n);
        self.place(contact, n, goes, row)?;
        Ok(())
    }

    /// An alarm rings: its message is awake.
    pub(crate) fn ring(&mut self, contact: u8, time: Time, n: u32) -> Result<(), AllocError>
        ensures { OnOk result (StandsOn self.old self.new) }
    {
        self.awake.mark(contact, n, true)?;
        self.alarms.remove(contact, time, n);
        Ok(())
    }
}
