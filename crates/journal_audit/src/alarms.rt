//! Times from which messages may go to contacts.
ghost use Rattle.std.specs.Prelude.{◌≡◌, ◌<◌, ℕ, cond, false, true, nat_eq, ◌&&◌, IfOk, OnOk};
ghost use Rattle.journal_audit.specs.Numbers.{has_alarm, has_time};

use crate::time::Time;
use std::alloc::{AllocError, Global};
use std::collections::BTreeSet;
use std::marker::Model;

/// Times in milliseconds, each with the arrival number of a message. Contracts see the list of them.
#[derive(Drop)]
struct Times {
    set: BTreeSet<(Time, u32)>,
}

impl Model for Times {
    ghost use Rattle.std.specs.Prelude.{List, ℕ};

    ghost Value = { List (ℕ × ℕ) };

    ghost view = { λ t. t.set.keys };
}

impl Times {
    // No times.
    fn new(alloc: Global) -> Times
        ensures { (t n : ℕ) → has_time result t n ≡ false }
    {
        Times {
            set: BTreeSet::new(alloc),
        }
    }

    // Adds a time of a message. After want of memory nothing is said of the set.
    fn add(&mut self, time: Time, number: u32) -> Result<(), AllocError>
        ensures { OnOk result ((t n : ℕ) → has_time self.new t n ≡ cond (nat_eq t time && nat_eq n
            number) true (has_time self.old t n)) }
    {
        self.set.insert((time, number))?;
        Ok(())
    }

    // Takes a time of a message out.
    fn remove(&mut self, time: Time, number: u32)
        ensures { (t n : ℕ) → has_time self.new t n ≡ cond (nat_eq t time && nat_eq n number) false
            (has_time self.old t n) }
    {
        self.set.remove(&(time, number));
    }

    // Whether each time is yet to come.
    fn are_ahead(&self, now: u64) -> bool
        ensures { result ≡ true → (t n : ℕ) → has_time self.now t n ≡ true → now < t }
    {
        match self.set.first() {
            Some((time, _)) => now < time.milliseconds(),
            None => true,
        }
    }

    // Those that have come.
    fn up_to(&self, alloc: Global, now: u64) -> Result<Vec<(Time, u32)>, AllocError> {
        let mut come = Vec::new(alloc);
        for (time, number) in &self.set {
            if time.milliseconds() > now {
                break;
            }
            come.push((*time, *number))?;
        }
        Ok(come)
    }
}

/// For each contact the times from which messages may go to it, each with the arrival number of its
/// message. Contracts see the lists of the 256 contacts.
#[derive(Drop)]
pub(crate) struct Alarms {
    sets: Vec<Times>,
}

/// How many contacts a byte tells apart.
const CONTACTS: usize = 256;

impl Model for Alarms {
    ghost use Rattle.std.specs.Prelude.{◌≡◌, List, ℕ, length};

    ghost Value = { List (List (ℕ × ℕ)) };

    ghost view = { λ a. a.sets.items };

    ghost invariant = { λ a. length a.sets.items ≡ 256 };
}

impl Alarms {
    /// No alarms for any contact.
    pub(crate) fn new(alloc: Global) -> Result<Alarms, AllocError>
        ensures { IfOk result (λ alarms. (contact t n : ℕ) → has_alarm alarms contact t n ≡ false) }
    {
        let mut sets = Vec::with_capacity(alloc, CONTACTS)?;
        for _ in 0..CONTACTS {
            sets.push(Times::new(alloc))?;
        }
        Ok(Alarms { sets })
    }

    /// Adds an alarm for a contact, where one is wanted. After want of memory nothing is said of the
    /// alarms.
    pub(crate) fn add_if(
        &mut self,
        is_wanted: bool,
        contact: u8,
        time: Time,
        number: u32,
    ) -> Result<(), AllocError>
        ensures { OnOk result ((c t n : ℕ) → has_alarm self.new c t n ≡ cond (is_wanted && (nat_eq c
            contact && (nat_eq t time && nat_eq n number))) true (has_alarm self.old c t n)) }
    {
        if !is_wanted {
            return Ok(());
        }
        let set = &mut self.sets[contact as usize];
        set.add(time, number)
    }

    /// Takes an alarm out for a contact.
    pub(crate) fn remove(&mut self, contact: u8, time: Time, number: u32)
        ensures { (c t n : ℕ) → has_alarm self.new c t n ≡ cond (nat_eq c contact && (nat_eq t time
            && nat_eq n number)) false (has_alarm self.old c t n) }
    {
        let set = &mut self.sets[contact as usize];
        set.remove(time, number);
    }

    /// Whether each alarm of a contact is yet to come.
    pub(crate) fn are_ahead(&self, contact: u8, now: u64) -> bool
        ensures { result ≡ true → (t n : ℕ) → has_alarm self.now contact t n ≡ true → now < t }
    {
        self.sets[contact as usize].are_ahead(now)
    }

    /// The alarms of a contact that have come, each the time and the arrival number of its message.
    pub(crate) fn up_to(
        &self,
        alloc: Global,
        contact: u8,
        now: u64,
    ) -> Result<Vec<(Time, u32)>, AllocError> {
        self.sets[contact as usize].up_to(alloc, now)
    }
}
