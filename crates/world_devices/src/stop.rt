//! Where a disk is to stop, and what came of a call.
ghost use Rattle.std.specs.Prelude.{◌≡◌};
ghost use Rattle.world_devices.specs.declared.stop.StepFault.TheVariants as fault_kind;

use outside::Pick;
use std::alloc::{AllocError, AllocFailed};

/// Where the disk of a device stops: at the call of this number, counted from 0 over all calls of
/// that disk, and which image of its files is then left.
#[derive(Clone, Copy, Debug, PartialEq, Eq)]
pub struct Stop {
    /// The number of the call.
    pub call: u64,
    /// The image.
    pub pick: Pick,
}

/// What came of a call of a device.
#[derive(Clone, Copy, Debug, PartialEq, Eq)]
pub enum Ran {
    /// It was made.
    Done,
    /// The disk stopped in it: the device crashed and was started again.
    Crashed,
}

/// Why a step was not made. After the first two nothing more is made.
#[derive(Clone, Copy, Debug, PartialEq, Eq)]
pub enum StepFault {
    /// No memory was found.
    Memory,
    /// The journal would pass its limit.
    Full,
    /// The rules do not let the device do this: all is as before.
    Refused,
}

impl From<AllocError> for StepFault {
    ghost from_gives = { λ _ e. e ≡ fault_kind.Memory };

    fn from(_: AllocError) -> StepFault {
        StepFault::Memory
    }
}

impl<T: Drop> From<AllocFailed<T>> for StepFault {
    ghost from_gives = { λ _ e. e ≡ fault_kind.Memory };

    fn from(_: AllocFailed<T>) -> StepFault {
        StepFault::Memory
    }
}
