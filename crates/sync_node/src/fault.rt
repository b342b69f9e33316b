//! Why a call of a node failed.
ghost use Rattle.std.specs.Prelude.{◌≡◌};
ghost use Rattle.sync_node.specs.Faults.{fault_of};
ghost use Rattle.sync_node.specs.declared.fault.Fault.TheVariants as fault_kind;

use std::alloc::{AllocError, AllocFailed};

/// Why a call of a node failed. After any of them the node is closed.
#[derive(Clone, Copy, Debug, PartialEq, Eq)]
pub enum NodeFault {
    /// No memory was found.
    Memory,
    /// A call on the disk failed; the store is to be loaded anew.
    DiskFault,
    /// The journal would pass its limit.
    Full,
    /// An earlier call of this node failed.
    Closed,
}

/// Why the work of a node that is not closed failed.
#[derive(Clone, Copy, Debug, PartialEq, Eq)]
pub(crate) enum Fault {
    /// No memory was found.
    Memory,
    /// A call on the disk failed.
    DiskFault,
    /// The journal would pass its limit.
    Full,
}

impl From<AllocError> for Fault {
    ghost from_gives = { λ _ e. e ≡ fault_kind.Memory };

    fn from(_: AllocError) -> Fault {
        Fault::Memory
    }
}

impl<T: Drop> From<AllocFailed<T>> for Fault {
    ghost from_gives = { λ _ e. e ≡ fault_kind.Memory };

    fn from(_: AllocFailed<T>) -> Fault {
        Fault::Memory
    }
}

impl From<Fault> for NodeFault {
    ghost from_gives = { λ fault e. e ≡ fault_of fault };

    fn from(fault: Fault) -> NodeFault {
        match fault {
            Fault::Memory => NodeFault::Memory,
            Fault::DiskFault => NodeFault::DiskFault,
            Fault::Full => NodeFault::Full,
        }
    }
}
