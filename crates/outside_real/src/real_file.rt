//! A file of this machine.
ghost use Rattle.std.specs.Prelude.{◌≡◌, ◌≤◌, true, length, is_err, IfOk};

use crate::ahead::{AHEAD, Ahead};
use crate::opening::{is_there, open, open_to_write};
use crate::pages::let_go_of_pages;
use crate::size_limit::may_grow_to;
use crate::streams::{read_full, write_full};
use std::alloc::{AllocError, Global};
use std::fs::{File, Files};
use std::io;
use std::io::{ErrorKind, Seek, SeekFrom};
use std::path::{Path, PathBuf};

/// For what a file was opened.
#[derive(Clone, Copy, PartialEq, Eq)]
enum Access {
    /// It was not looked for yet.
    Unseen,
    /// For reading alone, or it was not there.
    Reading,
    /// For writing too.
    Writing,
}

/// A file in a folder that no other process writes. It is opened at the first call, for reading
/// alone, and again at the first call that writes, which makes it, for its owner alone, if it is not
/// there; until then what is not there is empty. What is there and no regular file is a failure. Its
/// length and the bytes of reads ahead are kept. A sync makes its bytes and its length durable, and
/// the first one its name too. After a sync that failed each call fails. What the system keeps in
/// memory of the file is let go of behind each write, cut and sync that failed.
#[derive(Drop)]
pub struct RealFile {
    folder: PathBuf,
    path: PathBuf,
    file: Option<File>,
    access: Access,
    len: Option<u64>,
    position: Option<u64>,
    ahead: Ahead,
    is_named: bool,
    has_failed: bool,
}

impl RealFile {
    /// The file of this name, which need not be there, and of which nothing was read ahead yet.
    pub fn new(
        alloc: Global,
        folder: &str,
        name: &str,
        ahead: Ahead,
    ) -> Result<RealFile, AllocError> {
        let folder = Path::new(folder);
        Ok(RealFile {
            folder: folder.join(alloc, "")?,
            path: folder.join(alloc, name)?,
            file: None,
            access: Access::Unseen,
            len: None,
            position: None,
            ahead,
            is_named: false,
            has_failed: false,
        })
    }

    /// The length of the file in bytes.
    pub fn len<R: Files<File = File>>(&mut self, files: &R) -> io::Result<u64>
        ensures over { self.old.has_failed ≡ true → (is_err result ≡ true)
            × (self.new.has_failed ≡ true) }
        ensures still { self.new.has_failed ≡ self.old.has_failed }
    {
        self.find(files)?;
        match (self.len, &self.file) {
            (Some(len), _) => Ok(len),
            (None, Some(file)) => {
                let len = file.metadata()?.len();
                self.len = Some(len);
                Ok(len)
            }
            (None, None) => Ok(0),
        }
    }

    /// Reads from place `at` on into the front of `buf`, as many bytes as there are, or as it has
    /// room for.
    pub fn read_at<R: Files<File = File>>(
        &mut self,
        files: &R,
        at: u64,
        buf: &mut [u8],
    ) -> io::Result<usize>
        ensures bound { IfOk result (λ n. n ≤ length buf.new) }
        ensures over { self.old.has_failed ≡ true → (is_err result ≡ true)
            × (self.new.has_failed ≡ true) }
    {
        let left = self.len(files)?.saturating_sub(at);
        let wanted = left.min(buf.len() as u64) as usize;
        let wanted = wanted.min(buf.len());
        let part = &mut buf[..wanted];
        let had = self.ahead.copy(at, part);
        if had == wanted {
            return Ok(had);
        }
        if wanted > AHEAD {
            return self.read_past(at, part);
        }
        self.read_ahead(at, left.min(AHEAD as u64) as usize)?;
        Ok(self.ahead.copy(at, part))
    }

    /// Writes all bytes from place `at` on.
    pub fn write_at<R: Files<File = File>>(
        &mut self,
        files: &R,
        at: u64,
        bytes: &[u8],
    ) -> io::Result<()>
        ensures over { self.old.has_failed ≡ true → (is_err result ≡ true)
            × (self.new.has_failed ≡ true) }
    {
        let end = at.saturating_add(bytes.len() as u64);
        if !may_grow_to(end) {
            return Err(ErrorKind::FileTooLarge.into());
        }
        self.find_to_write(files, true)?;
        let had = self.len(files)?;
        self.forget();
        if let Some(file) = &mut self.file {
            write_behind(file, at, bytes)?;
        }
        self.len = Some(had.max(end));
        self.position = Some(end);
        Ok(())
    }

    /// Cuts the file to a length.
    pub fn cut<R: Files<File = File>>(&mut self, files: &R, len: u64) -> io::Result<()>
        ensures over { self.old.has_failed ≡ true → (is_err result ≡ true)
            × (self.new.has_failed ≡ true) }
    {
        self.find_to_write(files, false)?;
        self.forget();
        if let Some(file) = &self.file {
            cut_to(file, len)?;
            self.len = Some(len);
        }
        Ok(())
    }

    /// Waits until the file is on its device, and at the first time its name too.
    pub fn sync<R: Files<File = File>>(&mut self, files: &R) -> io::Result<()>
        ensures over { self.old.has_failed ≡ true → (is_err result ≡ true)
            × (self.new.has_failed ≡ true) }
        ensures fails { is_err result ≡ true → self.new.has_failed ≡ true }
    {
        match self.sync_now(files) {
            Ok(()) => Ok(()),
            Err(e) => {
                self.has_failed = true;
                self.let_go();
                Err(e)
            }
        }
    }

    // What is on its device then is the bytes and the length: the times of a file are no matter here.
    fn sync_now<R: Files<File = File>>(&mut self, files: &R) -> io::Result<()>
        ensures over { self.old.has_failed ≡ true → (is_err result ≡ true)
            × (self.new.has_failed ≡ true) }
    {
        self.find(files)?;
        if let Some(file) = &self.file {
            file.sync_data()?;
            if !self.is_named {
                sync_folder(files, self.folder.as_path())?;
                self.is_named = true;
            }
        }
        Ok(())
    }

    // What the system keeps of the file is let go of.
    fn let_go(&self) {
        if let Some(file) = &self.file {
            let_go_of_pages(file);
        }
    }

    // What was kept of the file is no longer known.
    fn forget(&mut self) {
        self.len = None;
        self.position = None;
        self.ahead.clear();
    }

    // Opens the file where it is there and was not looked for.
    fn find<R: Files<File = File>>(&mut self, files: &R) -> io::Result<()>
        ensures over { self.old.has_failed ≡ true → (is_err result ≡ true)
            × (self.new.has_failed ≡ true) }
        ensures still { self.new.has_failed ≡ self.old.has_failed }
    {
        if self.has_failed {
            return Err(ErrorKind::Other.into());
        }
        if self.access == Access::Unseen {
            if is_there(files, self.path.as_path())? {
                let file = open(files, self.path.as_path())?;
                self.take(file)?;
            }
            self.access = Access::Reading;
        }
        Ok(())
    }

    // The file as it was found.
    fn take(&mut self, file: File) -> io::Result<()>
        ensures { self.new.has_failed ≡ self.old.has_failed }
    {
        self.len = Some(file.metadata()?.len());
        self.position = Some(0);
        self.file = Some(file);
        Ok(())
    }

    // Opens the file for writing too, and makes it where that is asked and it is not there.
    fn find_to_write<R: Files<File = File>>(&mut self, files: &R, make: bool) -> io::Result<()>
        ensures over { self.old.has_failed ≡ true → (is_err result ≡ true)
            × (self.new.has_failed ≡ true) }
    {
        self.find(files)?;
        if self.access != Access::Writing && (make || self.file.is_some()) {
            let file = open_to_write(files, self.path.as_path(), make)?;
            if self.file.is_none() {
                self.len = Some(0);
            }
            self.file = Some(file);
            self.position = Some(0);
            self.access = Access::Writing;
        }
        Ok(())
    }

    // Reads more bytes than are read ahead.
    fn read_past(&mut self, at: u64, buf: &mut [u8]) -> io::Result<usize>
        ensures { IfOk result (λ n. n ≤ length buf.new) }
    {
        self.position = None;
        match &mut self.file {
            Some(file) => {
                file.seek(SeekFrom::Start(at))?;
                read_full(file, buf)
            }
            None => Ok(0),
        }
    }

    fn read_ahead(&mut self, at: u64, size: usize) -> io::Result<()> {
        let next = self.ahead.begin_at(at);
        if let Some(file) = &mut self.file {
            if self.position != Some(next) {
                self.position = None;
                file.seek(SeekFrom::Start(next))?;
            }
            self.position = None;
            self.position = Some(self.ahead.fill(file, size)?);
        }
        Ok(())
    }
}

// Writes all bytes from place `at` on.
fn write_behind(file: &mut File, at: u64, bytes: &[u8]) -> io::Result<()> {
    file.seek(SeekFrom::Start(at))?;
    let answer = write_full(file, bytes);
    if answer.is_err() {
        let_go_of_pages(file);
    }
    answer
}

// Cuts a file to a length.
fn cut_to(file: &File, len: u64) -> io::Result<()> {
    let answer = file.set_len(len);
    if answer.is_err() {
        let_go_of_pages(file);
    }
    answer
}

// Waits until the names in a folder are on its device.
fn sync_folder<R: Files<File = File>>(files: &R, folder: Path<'_>) -> io::Result<()> {
    let file = open(files, folder)?;
    let answer = file.sync_all();
    if answer.is_err() {
        let_go_of_pages(&file);
    }
    answer
}

/// Waits until the name of a folder is on its device, in the folder above. Where that can't be
/// opened or synced it stays as it was: who uses a folder need have no leave for the one above.
pub fn sync_above<R: Files<File = File>>(
    files: &R,
    alloc: Global,
    folder: &str,
) -> Result<(), AllocError> {
    let above = Path::new(folder).join(alloc, "..")?;
    let _ = sync_folder(files, above.as_path());
    Ok(())
}
