//! Why a batch was not added.

use std::alloc::AllocError;
use sync_store::StoreFault;
use thiserror::Error;

/// Why a batch was not added to a store.
#[derive(Clone, Copy, Debug, PartialEq, Eq, Error)]
pub enum AddFault {
    /// It begins with a step, or it may not follow the journal.
    #[error("the batch may not follow the journal")]
    NotAllowed,
    /// The store did not commit it, or did not settle.
    #[error("the store answered {0:?}")]
    Store(StoreFault),
}

impl From<AllocError> for AddFault {
    fn from(_: AllocError) -> AddFault {
        AddFault::Store(StoreFault::Memory)
    }
}

impl From<StoreFault> for AddFault {
    fn from(fault: StoreFault) -> AddFault {
        AddFault::Store(fault)
    }
}
