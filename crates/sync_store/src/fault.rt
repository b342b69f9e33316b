//! Why a call on a store failed.
ghost use Rattle.std.specs.Prelude.{◌≡◌};
ghost use Rattle.sync_store.specs.declared.fault.StoreFault.TheVariants as store;
ghost use Rattle.sync_store.specs.declared.fault.LoadFault.TheVariants as load;
ghost use Rattle.sync_store.specs.declared.fault.InitFault.TheVariants as init;
ghost use Rattle.sync_store.specs.declared.fault.PostFault.TheVariants as post;

use frame_journal::{DiskFault, FrameFault, StartFault};
use outside::Place;
use std::alloc::{AllocError, AllocFailed};
use sync_rules::Refused;

/// Why a batch was not committed.
#[derive(Clone, Copy, Debug, PartialEq, Eq)]
pub enum StoreFault {
    /// No memory was found.
    Memory,
    /// A call on the disk failed; the store is closed, and is to be loaded anew.
    DiskFault,
    /// The journal would pass its limit.
    Full,
    /// An earlier call answered `DiskFault`.
    Closed,
}

impl From<AllocError> for StoreFault {
    ghost from_gives = { λ _ e. e ≡ store.Memory };

    fn from(_: AllocError) -> StoreFault {
        StoreFault::Memory
    }
}

impl<T: Drop> From<AllocFailed<T>> for StoreFault {
    ghost from_gives = { λ _ e. e ≡ store.Memory };

    fn from(_: AllocFailed<T>) -> StoreFault {
        StoreFault::Memory
    }
}

/// Why no store was loaded.
#[derive(Clone, Copy, Debug, PartialEq, Eq)]
pub enum LoadFault {
    /// No memory was found.
    Memory,
    /// A call on the disk failed.
    DiskFault,
    /// No file has an open header.
    NoStore,
    /// The files stand for no legal journal; this is the first place that shows it.
    Damaged(Place),
}

impl From<AllocError> for LoadFault {
    ghost from_gives = { λ _ e. e ≡ load.Memory };

    fn from(_: AllocError) -> LoadFault {
        LoadFault::Memory
    }
}

impl From<DiskFault> for LoadFault {
    ghost from_gives = { λ _ e. e ≡ load.DiskFault };

    fn from(_: DiskFault) -> LoadFault {
        LoadFault::DiskFault
    }
}

impl From<StartFault> for LoadFault {
    ghost use Rattle.sync_store.specs.Faults.{load_of_start};

    ghost from_gives = { λ fault e. e ≡ load_of_start fault };

    fn from(fault: StartFault) -> LoadFault {
        match fault {
            StartFault::NoStore => LoadFault::NoStore,
            StartFault::DiskFault => LoadFault::DiskFault,
            StartFault::Damaged(place) => LoadFault::Damaged(place),
        }
    }
}

impl From<FrameFault> for LoadFault {
    ghost use Rattle.sync_store.specs.Faults.{load_of_frame};

    ghost from_gives = { λ fault e. e ≡ load_of_frame fault };

    fn from(fault: FrameFault) -> LoadFault {
        match fault {
            FrameFault::Memory => LoadFault::Memory,
            FrameFault::DiskFault => LoadFault::DiskFault,
            FrameFault::Damaged(place) => LoadFault::Damaged(place),
        }
    }
}

/// Why no store was begun.
#[derive(Clone, Copy, Debug, PartialEq, Eq)]
pub enum InitFault {
    /// A file has an open header.
    Exists,
    /// A call on the disk failed.
    DiskFault,
}

impl From<DiskFault> for InitFault {
    ghost from_gives = { λ _ e. e ≡ init.DiskFault };

    fn from(_: DiskFault) -> InitFault {
        InitFault::DiskFault
    }
}

/// Why a message may not be posted.
#[derive(Clone, Copy, Debug, PartialEq, Eq)]
pub enum PostFault {
    /// No memory was found.
    Memory,
    /// The rules refuse it.
    Refused(Refused),
}

impl From<AllocError> for PostFault {
    ghost from_gives = { λ _ e. e ≡ post.Memory };

    fn from(_: AllocError) -> PostFault {
        PostFault::Memory
    }
}

impl From<Refused> for PostFault {
    ghost from_gives = { λ refused e. e ≡ post.Refused refused };

    fn from(refused: Refused) -> PostFault {
        PostFault::Refused(refused)
    }
}
