//! The numbers of the standard streams.
use crate::opening::open;
use libc::{EBADF, POSIX_FADV_NORMAL};
use std::fs::{File, Files};
use std::io;
use std::path::Path;

/// The numbers 0, 1 and 2 that were free, held for as long as this is there.
#[derive(Drop)]
pub struct StandardNumbers {
    held: [Option<File>; 3],
}

/// Holds those of the numbers 0, 1 and 2 that are free, so that no file that is opened later gets
/// one, and what is written to a stream gets into no file. What holds them is the root folder, or
/// the current one where that can't be opened: neither can be read or written as a file, so a stream
/// that was closed stays one whose reads and writes fail. Where none is free nothing is opened.
pub fn hold_standard_numbers<R: Files<File = File>>(files: &R) -> io::Result<StandardNumbers> {
    let mut numbers = StandardNumbers {
        held: [None, None, None],
    };
    for (number, place) in numbers.held.iter_mut().enumerate() {
        if is_free(number as i32) {
            *place = Some(open_any_folder(files)?);
        }
    }
    Ok(numbers)
}

// Whether no open file has this number. The advice is what the system goes by anyway.
fn is_free(number: i32) -> bool {
    libc::posix_fadvise(number, 0, 0, POSIX_FADV_NORMAL) == EBADF
}

fn open_any_folder<R: Files<File = File>>(files: &R) -> io::Result<File> {
    match open(files, Path::new("/")) {
        Ok(folder) => Ok(folder),
        Err(_) => open(files, Path::new(".")),
    }
}
