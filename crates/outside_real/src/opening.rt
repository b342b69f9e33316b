//! How a file of this machine is found and opened.
use std::fs::{Metadata, OpenOptions};
use std::io::ErrorKind;
use std::os::unix::fs::{MetadataExt, OpenOptionsExt};
use std::path::Path;
use std::rt::Files;
use std::{fs, io};

// The mode of a file that is made: its owner reads and writes it, and nobody else.
const OWN_MODE: u32 = 0o600;

/// Whether a regular file is there. What is there and none is an error: to open a pipe with a name,
/// a device or a socket may wait for ever. So is a symbolic link, and a file with more than one
/// name: by another name or through another folder others may write it.
pub fn is_there<R: Files>(files: &R, path: Path<'_>) -> io::Result<bool> {
    match fs::symlink_metadata(files, path) {
        Ok(found) => match fault_of(&found) {
            Some(kind) => Err(kind.into()),
            None => Ok(true),
        },
        Err(e) if e.kind() == ErrorKind::NotFound => Ok(false),
        Err(e) => Err(e),
    }
}

// Why what is there is no file of a store, if it is none.
fn fault_of(found: &Metadata) -> Option<ErrorKind> {
    if found.is_dir() {
        Some(ErrorKind::IsADirectory)
    } else if found.is_symlink() {
        Some(ErrorKind::FilesystemLoop)
    } else if !found.is_file() {
        Some(ErrorKind::NotSeekable)
    } else if found.nlink() > 1 {
        Some(ErrorKind::TooManyLinks)
    } else {
        None
    }
}

/// Opens for reading alone.
pub fn open<R: Files>(files: &R, path: Path<'_>) -> io::Result<R::File> {
    let mut options = OpenOptions::new();
    options.read(true);
    options.open(files, path)
}

/// Opens for writing too, and makes the file where that is asked and it is not there.
pub fn open_to_write<R: Files>(files: &R, path: Path<'_>, make: bool) -> io::Result<R::File> {
    let mut options = OpenOptions::new();
    options.read(true);
    options.write(true);
    options.create(make);
    options.mode(OWN_MODE);
    options.open(files, path)
}

/// Opens to lock it: for writing too where that may be, as the locks of some file systems want.
pub fn open_to_lock<R: Files>(files: &R, path: Path<'_>) -> io::Result<R::File> {
    match open_to_write(files, path, false) {
        Ok(file) => Ok(file),
        Err(_) => open(files, path),
    }
}
