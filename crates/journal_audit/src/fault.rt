//! Why an audit gave no report.
ghost use Rattle.std.specs.Prelude.{◌≡◌};
ghost use Rattle.journal_audit.specs.declared.fault.AuditFault.TheVariants as fault;

use outside::{Failed, Place};
use std::alloc::{AllocError, AllocFailed};

/// Why an audit gave no report.
#[derive(Clone, Copy, Debug, PartialEq, Eq)]
pub enum AuditFault {
    /// No memory was found.
    Memory,
    /// No file has an open header.
    NoStore,
    /// The files stand for no legal journal; this is the first place that shows it.
    Damaged(Place),
    /// A call on the disk failed.
    DiskFault,
}

impl From<AllocError> for AuditFault {
    ghost from_gives = { λ _ e. e ≡ fault.Memory };

    fn from(_: AllocError) -> AuditFault {
        AuditFault::Memory
    }
}

impl<T: Drop> From<AllocFailed<T>> for AuditFault {
    ghost from_gives = { λ _ e. e ≡ fault.Memory };

    fn from(_: AllocFailed<T>) -> AuditFault {
        AuditFault::Memory
    }
}

impl From<Failed> for AuditFault {
    ghost from_gives = { λ _ e. e ≡ fault.DiskFault };

    fn from(_: Failed) -> AuditFault {
        AuditFault::DiskFault
    }
}
