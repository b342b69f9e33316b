//! Why a line or a script was not read.
ghost use Rattle.std.specs.Prelude.{◌≡◌};
ghost use Rattle.world_scripts.specs.declared.fault.LineFault.TheVariants as line_fault;

use std::alloc::{AllocError, AllocFailed};

/// Why a line was not read.
#[derive(Clone, Copy, Debug, PartialEq, Eq)]
pub enum LineFault {
    /// No memory was found.
    Memory,
    /// The line is of no form.
    NoForm,
}

impl From<AllocError> for LineFault {
    ghost from_gives = { λ _ e. e ≡ line_fault.Memory };

    fn from(_: AllocError) -> LineFault {
        LineFault::Memory
    }
}

impl<T: Drop> From<AllocFailed<T>> for LineFault {
    ghost from_gives = { λ _ e. e ≡ line_fault.Memory };

    fn from(_: AllocFailed<T>) -> LineFault {
        LineFault::Memory
    }
}

/// Why the next line of a script was not read.
#[derive(Clone, Copy, Debug, PartialEq, Eq)]
pub enum ScriptFault {
    /// No memory was found.
    Memory,
    /// The number of the first bad line, counted from 1.
    BadLine(u32),
}
