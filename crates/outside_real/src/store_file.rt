//! A file of a store, as a process may use it.
ghost use Rattle.std.specs.Prelude.{◌≡◌, ◌≤◌, false, true, length, is_err, IfOk};

use crate::ahead::Ahead;
use crate::real_file::RealFile;
use std::alloc::{AllocError, Global};
use std::fs::{File, Files};
use std::io;
use std::io::ErrorKind;

/// What a process may do with a file.
#[derive(Clone, Copy, PartialEq, Eq)]
enum Leave {
    /// Read and write it.
    All,
    /// Read it, as it was when it was copied.
    Copy,
    /// Nothing.
    Nothing,
}

/// A file that is read and written, one that is read from a copy, or one that is not touched: then
/// each call fails. A copy is never written; its sync is that of the file itself, behind the copy,
/// so that what was read is durable.
#[derive(Drop)]
pub struct StoreFile {
    file: RealFile,
    copy: Vec<u8>,
    leave: Leave,
    pub may_write: bool,
}

impl StoreFile {
    /// A file that is read and written.
    pub fn open(alloc: Global, folder: &str, name: &str) -> Result<StoreFile, AllocError> {
        let ahead = Ahead::with_room(alloc)?;
        Ok(StoreFile {
            file: RealFile::new(alloc, folder, name, ahead)?,
            copy: Vec::new(alloc),
            leave: Leave::All,
            may_write: true,
        })
    }

    /// A file that is not touched.
    pub fn shut(alloc: Global, folder: &str, name: &str) -> Result<StoreFile, AllocError>
        ensures { IfOk result (λ file. file.may_write ≡ false) }
    {
        Ok(StoreFile {
            file: RealFile::new(alloc, folder, name, Ahead::new(alloc))?,
            copy: Vec::new(alloc),
            leave: Leave::Nothing,
            may_write: false,
        })
    }

    /// The file is read from this copy from now on, and not written.
    pub fn read_from(&mut self, copy: Vec<u8>)
        ensures { self.new.may_write ≡ false }
    {
        self.copy = copy;
        self.leave = Leave::Copy;
        self.may_write = false;
    }

    /// The length in bytes.
    pub fn len<R: Files<File = File>>(&mut self, files: &R) -> io::Result<u64>
        ensures { self.new.may_write ≡ self.old.may_write }
    {
        match self.leave {
            Leave::All => self.file.len(files),
            Leave::Copy => Ok(self.copy.len() as u64),
            Leave::Nothing => Err(ErrorKind::PermissionDenied.into()),
        }
    }

    /// Reads from place `at` on into the front of `buf`, as many bytes as there are, or as it has
    /// room for.
    pub fn read_at<R: Files<File = File>>(
        &mut self,
        files: &R,
        at: u64,
        buf: &mut [u8],
    ) -> io::Result<usize>
        ensures bound { IfOk result (λ n. n ≤ length buf.new) }
        ensures leave { self.new.may_write ≡ self.old.may_write }
    {
        match self.leave {
            Leave::All => self.file.read_at(files, at, buf),
            Leave::Copy => Ok(copy_from(self.copy.as_slice(), at, buf)),
            Leave::Nothing => Err(ErrorKind::PermissionDenied.into()),
        }
    }

    /// Writes all bytes from place `at` on.
    pub fn write_at<R: Files<File = File>>(
        &mut self,
        files: &R,
        at: u64,
        bytes: &[u8],
    ) -> io::Result<()>
        ensures refused { self.old.may_write ≡ false → is_err result ≡ true }
        ensures leave { self.new.may_write ≡ self.old.may_write }
    {
        if !self.may_write {
            return Err(ErrorKind::PermissionDenied.into());
        }
        self.file.write_at(files, at, bytes)
    }

    /// Cuts the file to a length.
    pub fn cut<R: Files<File = File>>(&mut self, files: &R, len: u64) -> io::Result<()>
        ensures refused { self.old.may_write ≡ false → is_err result ≡ true }
        ensures leave { self.new.may_write ≡ self.old.may_write }
    {
        if !self.may_write {
            return Err(ErrorKind::PermissionDenied.into());
        }
        self.file.cut(files, len)
    }

    /// Waits until the file, with its name, is on its device.
    pub fn sync<R: Files<File = File>>(&mut self, files: &R) -> io::Result<()>
        ensures { self.new.may_write ≡ self.old.may_write }
    {
        match self.leave {
            Leave::All | Leave::Copy => self.file.sync(files),
            Leave::Nothing => Err(ErrorKind::PermissionDenied.into()),
        }
    }
}

// Copies the bytes from place `at` on into the front of `buf`, and says how many.
fn copy_from(bytes: &[u8], at: u64, buf: &mut [u8]) -> usize
    ensures { result ≤ length buf.new }
{
    let left = match usize::try_from(at) {
        Ok(at) if at < bytes.len() => &bytes[at..],
        _ => return 0,
    };
    let n = left.len().min(buf.len());
    buf[..n].copy_from_slice(&left[..n]);
    n
}
