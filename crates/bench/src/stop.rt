//! Why a measure came to no end.
use std::alloc::AllocError;
use test_device::AddFault;
use thiserror::Error;

/// Why a measure came to no end.
#[derive(Debug, Drop, Error)]
pub(crate) enum Stop {
    #[error("out of memory")]
    Memory(#[from(alloc)] AllocError),
    #[error("no such message, group or list of ids")]
    NoValue,
    #[error("no message was added: {0}")]
    NotAdded(#[from] AddFault),
}
