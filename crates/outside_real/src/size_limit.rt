//! How long the system lets a file of this process grow.
use libc::types::rlimit;

// The resource of `getrlimit` that is the size of a file: `RLIMIT_FSIZE` of Linux.
const FILE_SIZE: i32 = 1;

/// Whether a file may have this length, in bytes. A write past the limit would end the process by a
/// signal, which is not ignored here; so it is not made.
pub fn may_grow_to(len: u64) -> bool {
    let mut limit = rlimit {
        rlim_cur: u64::MAX,
        rlim_max: u64::MAX,
    };
    libc::getrlimit(FILE_SIZE, &mut limit) != 0 || len <= limit.rlim_cur
}
