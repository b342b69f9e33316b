//! Why reading stopped.
ghost use Rattle.std.specs.Prelude.{◌≡◌};
ghost use Rattle.entry_codec.specs.declared.stop.Stop.TheVariants as stop;

use std::alloc::{AllocError, AllocFailed};

// Why no part was read.
#[derive(Clone, Copy, Debug, PartialEq, Eq)]
pub(crate) enum Stop {
    // No such part stands at the front.
    BadEntry,
    // No memory was found.
    Memory,
}

impl From<AllocError> for Stop {
    ghost from_gives = { λ _ e. e ≡ stop.Memory };

    fn from(_: AllocError) -> Stop {
        Stop::Memory
    }
}

impl<T: Drop> From<AllocFailed<T>> for Stop {
    ghost from_gives = { λ _ e. e ≡ stop.Memory };

    fn from(_: AllocFailed<T>) -> Stop {
        Stop::Memory
    }
}
