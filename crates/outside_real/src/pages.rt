//! What the system keeps of a file in memory.
use libc::POSIX_FADV_DONTNEED;
use std::fs::File;
use std::os::fd::AsRawFd;

/// Lets go of what the system keeps in memory of a file and has nothing more to write of, so that
/// who reads it next reads what its device has. Behind an error of a write a system may keep bytes
/// that never got to the device and count them as written. A system that does not do so can't be
/// made to, so its answer is not asked for.
pub fn let_go_of_pages(file: &File) {
    libc::posix_fadvise(file.as_raw_fd(), 0, 0, POSIX_FADV_DONTNEED);
}
