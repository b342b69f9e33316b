//! What the tests share: a comparison that prints both values where they differ, and results that
//! are wanted.
ghost use Rattle.std.specs.Prelude.{◌≡◌, Ok};

use std::fmt::Debug;
use std::process::Abort;

/// The value is the one that is wanted. In a table it stands beside what its row is known by.
pub fn same<T: PartialEq + Debug>(rt: &impl Abort, got: &T, want: &T) {
    assert_eq!(rt; *got, *want);
}

/// What was made, which fails only where memory is short or the test is wrong.
pub fn made<T, E: Debug + Drop>(rt: &impl Abort, outcome: Result<T, E>) -> T
    ensures { outcome ≡ Ok result }
{
    outcome.expect(rt, "it is made")
}
