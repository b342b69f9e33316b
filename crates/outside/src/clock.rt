//! The clock of a host in memory.
ghost use Rattle.std.specs.Prelude.{◌≡◌, [], OnOk, OnErr};
ghost use Rattle.outside.specs.Faults.{one_more};
ghost use Rattle.outside.specs.MemHost.{Readings, last_of, next_reading, reading_added};
ghost use Rattle.outside.specs.MemHost.{reading_set, upcoming_of};
ghost use Rattle.outside.specs.Planned.{UsesReading};

use std::alloc::{AllocError, Global};
use std::marker::Model;

/// Readings that were given, the last of which is repeated, and how many were made.
#[derive(Drop)]
pub struct Clock {
    given: Vec<u64>,
    made: u64,
}

impl Model for Clock {
    ghost use Rattle.outside.specs.MemHost.{Readings};

    ghost Value = { Readings };

    ghost view = { λ c. record { given = c.given.items; made = c.made } };
}

impl Clock {
    /// A clock that gives 0.
    pub fn new(alloc: Global) -> Clock
        ensures { result ≡ record { given = []; made = 0 } }
    {
        Clock {
            given: Vec::new(alloc),
            made: 0,
        }
    }

    /// The next reading. The count of readings stands still at 2^64 - 1.
    pub fn read(&mut self) -> u64
        ensures reading { result ≡ next_reading self.old }
        ensures counts { self.new ≡ record self.old { made = one_more self.old.made } }
        ensures upcoming { UsesReading result (upcoming_of self.old) (upcoming_of self.new) }
    {
        let place = self.made;
        let reading = reading_at(&self.given, place);
        self.made = place.saturating_add(1);
        reading
    }

    /// Gives a reading more, behind those that were given and those that were made.
    pub fn add(&mut self, reading: u64) -> Result<(), AllocError>
        ensures ok { OnOk result (self.new ≡ reading_added reading self.old) }
        ensures err { OnErr result (self.new ≡ self.old) }
    {
        let had = self.given.len();
        let last = last_in(&self.given);
        self.given.resize(had.max(self.made as usize), last)?;
        if self.given.push(reading).is_err() {
            self.given.truncate(had);
            return Err(AllocError);
        }
        Ok(())
    }

    /// Gives this one reading in the place of all that were not made.
    pub fn set(&mut self, reading: u64) -> Result<(), AllocError>
        ensures ok { OnOk result (self.new ≡ reading_set reading self.old) }
        ensures err { OnErr result (self.new ≡ self.old) }
    {
        let made = self.made as usize;
        if made >= self.given.len() {
            return self.add(reading);
        }
        self.given[made] = reading;
        self.given.truncate(made + 1);
        Ok(())
    }
}

fn last_in(given: &[u64]) -> u64
    ensures { result ≡ last_of given.now }
{
    given.last().copied().unwrap_or(0)
}

fn reading_at(given: &[u64], place: u64) -> u64
    ensures { result ≡ next_reading (record { given = given.now; made = place }) }
{
    if place < given.len() as u64 {
        given[place as usize]
    } else {
        last_in(given)
    }
}
