//! Why no brief account was written.
ghost use Rattle.std.specs.Prelude.{◌≡◌};
ghost use Rattle.journal_compaction.specs.declared.fault.CompactionFault.TheVariants as fault;

use frame_journal::DiskFault;
use journal_migration::MigrationFault;
use std::alloc::{AllocError, AllocFailed};

/// Why no brief account was written.
#[derive(Clone, Copy, Debug, PartialEq, Eq)]
pub enum CompactionFault {
    /// The brief account and the room behind it would pass the limit.
    Full,
    /// No memory was found.
    Memory,
    /// A call on the disk failed.
    DiskFault,
}

impl From<AllocError> for CompactionFault {
    ghost from_gives = { λ _ e. e ≡ fault.Memory };

    fn from(_: AllocError) -> CompactionFault {
        CompactionFault::Memory
    }
}

impl<T: Drop> From<AllocFailed<T>> for CompactionFault {
    ghost from_gives = { λ _ e. e ≡ fault.Memory };

    fn from(_: AllocFailed<T>) -> CompactionFault {
        CompactionFault::Memory
    }
}

impl From<DiskFault> for CompactionFault {
    ghost from_gives = { λ _ e. e ≡ fault.DiskFault };

    fn from(_: DiskFault) -> CompactionFault {
        CompactionFault::DiskFault
    }
}

impl From<MigrationFault> for CompactionFault {
    ghost use Rattle.journal_compaction.specs.Faults.{fault_of};

    ghost from_gives = { λ f e. e ≡ fault_of f };

    fn from(fault: MigrationFault) -> CompactionFault {
        match fault {
            MigrationFault::Memory => CompactionFault::Memory,
            MigrationFault::DiskFault => CompactionFault::DiskFault,
        }
    }
}
