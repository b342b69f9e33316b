//! Why a journal was not written anew.
ghost use Rattle.std.specs.Prelude.{◌≡◌};
ghost use Rattle.journal_migration.specs.declared.fault.MigrationFault.TheVariants as fault;

use frame_journal::{DiskFault, FrameFault, StartFault};
use std::alloc::{AllocError, AllocFailed};

/// Why a journal was not written anew.
#[derive(Clone, Copy, Debug, PartialEq, Eq)]
pub enum MigrationFault {
    /// No memory was found. A disk that gives other bytes at a second reading counts as this too:
    /// what it gave at the first is not known any more.
    Memory,
    /// A call on the disk failed.
    DiskFault,
}

impl From<AllocError> for MigrationFault {
    ghost from_gives = { λ _ e. e ≡ fault.Memory };

    fn from(_: AllocError) -> MigrationFault {
        MigrationFault::Memory
    }
}

impl<T: Drop> From<AllocFailed<T>> for MigrationFault {
    ghost from_gives = { λ _ e. e ≡ fault.Memory };

    fn from(_: AllocFailed<T>) -> MigrationFault {
        MigrationFault::Memory
    }
}

impl From<DiskFault> for MigrationFault {
    ghost from_gives = { λ _ e. e ≡ fault.DiskFault };

    fn from(_: DiskFault) -> MigrationFault {
        MigrationFault::DiskFault
    }
}

impl From<FrameFault> for MigrationFault {
    ghost use Rattle.journal_migration.specs.Faults.{fault_of_frame};

    ghost from_gives = { λ f e. e ≡ fault_of_frame f };

    fn from(fault: FrameFault) -> MigrationFault {
        match fault {
            FrameFault::DiskFault => MigrationFault::DiskFault,
            FrameFault::Memory | FrameFault::Damaged(_) => MigrationFault::Memory,
        }
    }
}

impl From<StartFault> for MigrationFault {
    ghost use Rattle.journal_migration.specs.Faults.{fault_of_start};

    ghost from_gives = { λ f e. e ≡ fault_of_start f };

    fn from(fault: StartFault) -> MigrationFault {
        match fault {
            StartFault::DiskFault => MigrationFault::DiskFault,
            StartFault::NoStore | StartFault::Damaged(_) => MigrationFault::Memory,
        }
    }
}
