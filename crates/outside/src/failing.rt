//! Which calls are to fail.
ghost use Rattle.std.specs.Prelude.{◌≡◌, ◌≤◌, [], ◌∷◌, ◌++◌, OnOk, OnErr};
ghost use Rattle.outside.specs.MemHost.{Schedule, one_made, fails_now};

use std::alloc::{AllocError, Global};
use std::marker::Model;

/// The numbers of the calls that are to fail, counted from 0, and how many calls were made.
#[derive(Drop)]
pub struct Failing {
    failing: Vec<u64>,
    made: u64,
}

impl Model for Failing {
    ghost use Rattle.outside.specs.MemHost.{Schedule};

    ghost Value = { Schedule };

    ghost view = { λ f. record { failing = f.failing.items; made = f.made } };
}

impl Failing {
    /// No call is to fail.
    pub fn new(alloc: Global) -> Failing
        ensures { result ≡ record { failing = []; made = 0 } }
    {
        Failing {
            failing: Vec::new(alloc),
            made: 0,
        }
    }

    /// The call of this number is to fail.
    pub fn add(&mut self, call: u64) -> Result<(), AllocError>
        ensures ok { OnOk result
            (self.new ≡ record self.old { failing = self.old.failing ++ call ∷ [] }) }
        ensures err { OnErr result (self.new ≡ self.old) }
    {
        self.failing.push(call)?;
        Ok(())
    }

    /// No call from now on is to fail.
    pub fn clear(&mut self)
        ensures { self.new ≡ record self.old { failing = [] } }
    {
        self.failing.clear();
    }

    /// How many calls were made; it stands still at 2^64 - 1.
    pub fn made(&self) -> u64
        ensures { result ≡ self.now.made }
    {
        self.made
    }

    /// Counts a call, and says whether it is to fail. The count stands still at 2^64 - 1.
    pub fn next(&mut self) -> bool
        ensures due { result ≡ fails_now self.old }
        ensures counts { self.new ≡ one_made self.old }
        ensures later { self.old.made ≤ self.new.made }
    {
        let call = self.made;
        self.made = call.saturating_add(1);
        self.failing.contains(&call)
    }
}
