//! Why a call on the files of a store failed, as a person is told it.
use std::alloc::AllocError;
use std::io;
use std::io::ErrorKind;

/// Why a call on the files of a store failed.
#[derive(Clone, Copy, Debug, PartialEq, Eq)]
pub enum Cause {
    /// Another process has the store for longer than one waits for it.
    Held,
    /// What stands in the place of a file is no regular file with one name.
    NoFile,
    /// What stands at the name of a node's socket is no socket of this user, or somebody answers there.
    NoSocket,
    /// A file would grow past the limit that the system sets to this process.
    Limit,
    /// The device, or what this user may have of it, is full.
    NoRoom,
    /// The file system may only be read.
    ReadOnly,
    /// This user may not do it.
    Forbidden,
    /// The system found no memory for a call.
    Memory,
    /// Any other failure, of a device among them.
    Device,
}

impl Cause {
    /// The cause that an error of a file tells.
    pub fn of(error: &io::Error) -> Cause {
        match error.kind() {
            ErrorKind::TimedOut | ErrorKind::ResourceBusy => Cause::Held,
            ErrorKind::IsADirectory
            | ErrorKind::FilesystemLoop
            | ErrorKind::TooManyLinks
            | ErrorKind::NotSeekable => Cause::NoFile,
            ErrorKind::FileTooLarge => Cause::Limit,
            ErrorKind::StorageFull | ErrorKind::QuotaExceeded => Cause::NoRoom,
            ErrorKind::ReadOnlyFilesystem => Cause::ReadOnly,
            ErrorKind::PermissionDenied => Cause::Forbidden,
            ErrorKind::OutOfMemory => Cause::Memory,
            _ => Cause::Device,
        }
    }

    /// A line for the error output.
    pub fn line(self) -> &'static str {
        match self {
            Cause::Held => "cause: another process has the store\n",
            Cause::NoFile => "cause: bsp.0 or bsp.1 is no regular file with one name\n",
            Cause::NoSocket => "cause: bsp.sock is in the way\n",
            Cause::Limit => "cause: a file may not grow so long\n",
            Cause::NoRoom => "cause: the disk is full\n",
            Cause::ReadOnly => "cause: the file system is read-only\n",
            Cause::Forbidden => "cause: permission denied\n",
            Cause::Memory => "cause: the system has no memory\n",
            Cause::Device => "cause: a call of the system failed\n",
        }
    }
}

/// Why the files of a store can't be had.
#[derive(Debug, Drop)]
pub enum Unmet {
    /// Memory is wanting.
    Memory,
    /// A call failed, or another process has them.
    Cause(Cause),
}

impl From<io::Error> for Unmet {
    fn from(error: io::Error) -> Unmet {
        match Cause::of(&error) {
            Cause::Memory => Unmet::Memory,
            cause => Unmet::Cause(cause),
        }
    }
}

impl From<AllocError> for Unmet {
    fn from(_: AllocError) -> Unmet {
        Unmet::Memory
    }
}
