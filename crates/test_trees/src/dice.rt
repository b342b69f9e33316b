//! Numbers that look random and are the same in each run.

ghost use Rattle.std.specs.Prelude.{◌≤◌};

/// A generator of numbers by shifts (xorshift, 64 bits). A copy gives the same numbers again.
#[derive(Clone, Copy)]
pub(crate) struct Dice(u64);

impl Dice {
    /// The generator of this case.
    pub(crate) fn new(case: u32) -> Dice {
        let start = u64::from(case).wrapping_mul(0x9e37_79b9_7f4a_7c15) ^ 0x2545_f491_4f6c_dd1d;
        Dice(start | 1)
    }

    fn next(&mut self) -> u64 {
        let mut x = self.0;
        x ^= x << 13;
        x ^= x >> 7;
        x ^= x << 17;
        self.0 = x;
        x.wrapping_mul(0x2545_f491_4f6c_dd1d) >> 32
    }

    /// A number below this one, or 0 where there is none.
    pub(crate) fn below(&mut self, end: u64) -> u64
        ensures { result ≤ end }
    {
        self.next().checked_rem(end).unwrap_or(0)
    }

    /// Whether one of so many throws comes out.
    pub(crate) fn one_in(&mut self, throws: u64) -> bool {
        self.below(throws) == 0
    }
}
