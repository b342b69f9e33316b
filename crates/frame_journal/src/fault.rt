//! Why a call on frames failed.
ghost use Rattle.std.specs.Prelude.{◌≡◌};
ghost use Rattle.frame_journal.specs.declared.fault.StartFault.TheVariants as start;
ghost use Rattle.frame_journal.specs.declared.fault.FrameFault.TheVariants as frame;

use outside::{Failed, Place};
use std::alloc::{AllocError, AllocFailed};

/// A call on the disk failed; its count of faults rose in that call.
#[derive(Clone, Copy, Debug, PartialEq, Eq)]
pub struct DiskFault;

impl From<Failed> for DiskFault {
    fn from(_: Failed) -> DiskFault {
        DiskFault
    }
}

/// Why no journal was found.
#[derive(Clone, Copy, Debug, PartialEq, Eq)]
pub enum StartFault {
    /// No file has an open header.
    NoStore,
    /// A call on the disk failed.
    DiskFault,
    /// The journal's file has another format.
    Damaged(Place),
}

impl From<Failed> for StartFault {
    ghost from_gives = { λ _ e. e ≡ start.DiskFault };

    fn from(_: Failed) -> StartFault {
        StartFault::DiskFault
    }
}

impl From<DiskFault> for StartFault {
    ghost from_gives = { λ _ e. e ≡ start.DiskFault };

    fn from(_: DiskFault) -> StartFault {
        StartFault::DiskFault
    }
}

/// Why no frame was read.
#[derive(Clone, Copy, Debug, PartialEq, Eq)]
pub enum FrameFault {
    /// No memory was found.
    Memory,
    /// A call on the disk failed.
    DiskFault,
    /// No gate, or no whole frame, stands at this place.
    Damaged(Place),
}

impl From<Failed> for FrameFault {
    ghost from_gives = { λ _ e. e ≡ frame.DiskFault };

    fn from(_: Failed) -> FrameFault {
        FrameFault::DiskFault
    }
}

impl From<AllocError> for FrameFault {
    ghost from_gives = { λ _ e. e ≡ frame.Memory };

    fn from(_: AllocError) -> FrameFault {
        FrameFault::Memory
    }
}

impl<T: Drop> From<AllocFailed<T>> for FrameFault {
    ghost from_gives = { λ _ e. e ≡ frame.Memory };

    fn from(_: AllocFailed<T>) -> FrameFault {
        FrameFault::Memory
    }
}
