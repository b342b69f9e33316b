//! A time as rows and alarms keep it.
ghost use Rattle.std.specs.Prelude.{◌≡◌, ◌==◌};
ghost use Rattle.std.specs.Cmp.{partial_order_from_own_ties};
ghost use Rattle.std.specs.Cmp.Rules.{comparing};
ghost use Rattle.std.specs.Ordering.{as_partial_cmp, nat_cmp};
ghost use Rattle.std.proofs.Common.{rules};

use std::cmp::Ordering;
use std::marker::Model;

/// A time in milliseconds, in two halves, so that a row or an alarm leaves no room beside it empty.
/// Contracts see the number.
#[derive(Clone, Copy)]
pub(crate) struct Time {
    high: u32,
    low: u32,
}

/// How many times the lower half has.
const HALF: u64 = 0x1_0000_0000;

impl Model for Time {
    ghost use Rattle.std.specs.Prelude.{ℕ, ◌+◌, ◌*◌, ◌/◌, ◌%◌, ◌^◌, ◌<◌};
    ghost use Rattle.std.proofs.lemmas.Nat.{div-mul-add, mod-mul-add};

    ghost Value = { ℕ };

    ghost view = { λ t. t.high * 2 ^ 32 + t.low };

    ghost invariant = { λ t. t.low < 2 ^ 32 };

    ghost inverse = { λ n. record { high = n / 2 ^ 32; low = n % 2 ^ 32 } };

    ghost inverse_ok = { λ t h i. record {
      high = div-mul-add t.high (2 ^ 32) t.low h i;
      low = mod-mul-add t.high (2 ^ 32) t.low h i;
    } };
}

impl Time {
    /// The time of so many milliseconds.
    pub(crate) fn new(milliseconds: u64) -> Time
        ensures { result ≡ milliseconds }
    {
        Time {
            high: (milliseconds / HALF) as u32,
            low: (milliseconds % HALF) as u32,
        }
    }

    /// Its milliseconds.
    pub(crate) fn milliseconds(self) -> u64
        ensures { result ≡ self }
    {
        u64::from(self.high) * HALF + u64::from(self.low)
    }
}

impl PartialEq for Time {
    ghost eq = { ◌==◌ };

    ghost laws = { Prim.search (comparing, rules) };

    fn eq(&self, other: &Time) -> bool {
        self.milliseconds() == other.milliseconds()
    }
}

impl Eq for Time {
    ghost laws = { Prim.search (comparing, rules) };
}

impl Ord for Time {
    ghost cmp = { nat_cmp };

    ghost total = { Prim.search (comparing, rules) };

    ghost matches_partial_cmp = { Prim.search (comparing, rules) };

    ghost matches_eq = { Prim.search (comparing, rules) };

    fn cmp(&self, other: &Time) -> Ordering {
        self.milliseconds().cmp(&other.milliseconds())
    }
}

impl PartialOrd for Time {
    ghost partial_cmp = { as_partial_cmp nat_cmp };

    ghost laws = { partial_order_from_own_ties (Prim.search (comparing, rules))
        (Prim.search (comparing, rules)) };

    fn partial_cmp(&self, other: &Time) -> Option<Ordering> {
        Some(self.cmp(other))
    }
}
