//! Who may read and write the files of a store, among the processes of a machine.
//!
//! Who writes has exclusive locks on the store's folder and on those of its files that are there, so
//! that two who come to one file by two folders meet too. Who stays for as long as others take keeps
//! those on the files and shares the folder: by this it is told from who will be done at once. Who
//! reads has a shared lock on the folder. All are those of `flock`, which the system releases when a
//! process ends.
use crate::cause::{Cause, Unmet};
use crate::need::Need;
use crate::opening::{is_there, open, open_to_lock, open_to_write};
use std::alloc::Global;
use std::cell::Cell;
use std::fs::{File, Files, TryLockError};
use std::path::Path;
use std::time::{Clock, Duration};
use std::{io, thread};

// How long a process sleeps before it looks again whether it may go on.
const PAUSE_MILLISECONDS: u64 = 10;

// How often it looks at most behind one that stays: ten seconds of pauses.
const MOST_LOOKS: u32 = 1_000;

/// Locks, which are held until they are let go of, and no longer than this is there.
#[derive(Drop)]
pub struct Lock {
    folder: File,
    first: Option<File>,
    second: Option<File>,
    is_held: Cell<bool>,
}

/// Who has what is to be locked.
#[derive(Clone, Copy, PartialEq, Eq)]
enum Holder {
    /// Nobody had it: it is locked.
    Nobody,
    /// One that will be done at once.
    Short,
    /// One that stays, or one that came to a file by another folder.
    Long,
}

impl Lock {
    /// Whether it was not let go of.
    pub fn is_held(&self) -> bool {
        self.is_held.get()
    }

    /// Lets go of all locks. Where the system does not, they end with the process.
    pub fn let_go(&self) {
        self.is_held.set(false);
        let _ = self.folder.unlock();
        unlock(&self.first);
        unlock(&self.second);
    }

    // Locks the folder and the files that are there to write, or nothing.
    fn take<R: Files<File = File>>(
        &mut self,
        files: &R,
        alloc: Global,
        folder: &str,
        make: bool,
    ) -> io::Result<Holder> {
        if !is_taken(self.folder.try_lock())? {
            return self.holder(files, alloc, folder);
        }
        if make {
            // Where it can't be made the command finds that at its first write.
            let _ = make_file(files, alloc, folder);
        }
        self.first = opened(files, alloc, folder, "bsp.0")?;
        self.second = opened(files, alloc, folder, "bsp.1")?;
        if is_had(&self.first)? && is_had(&self.second)? {
            return Ok(Holder::Nobody);
        }
        self.first = None;
        self.second = None;
        self.folder.unlock()?;
        Ok(Holder::Long)
    }

    // Who has the folder, which is not locked here. It is shared, and each file, for a moment.
    fn holder<R: Files<File = File>>(
        &self,
        files: &R,
        alloc: Global,
        folder: &str,
    ) -> io::Result<Holder> {
        if !is_taken(self.folder.try_lock_shared())? {
            return Ok(Holder::Short);
        }
        let is_long = is_alone(files, alloc, folder, "bsp.0")?
            || is_alone(files, alloc, folder, "bsp.1")?;
        self.folder.unlock()?;
        if is_long {
            Ok(Holder::Long)
        } else {
            Ok(Holder::Short)
        }
    }
}

/// Who waits for the files of a folder. It looks again and again whether it may have them as it needs
/// them, and may do something else between.
#[derive(Drop)]
pub struct Turn {
    need: Need,
    lock: Option<Lock>,
    is_locked: bool,
    looks: u32,
}

impl Turn {
    /// Before the first look. Who needs nothing touches nothing.
    pub fn new<R: Files<File = File>>(files: &R, folder: &str, need: Need) -> Result<Turn, Unmet> {
        let lock = if need == Need::Nothing {
            None
        } else {
            Some(unlocked(files, folder)?)
        };
        Ok(Turn {
            need,
            lock,
            is_locked: false,
            looks: 0,
        })
    }

    /// Looks once whether the files may be had: to write, whether nobody else reads or writes them;
    /// to read, whether nobody writes them but one that stays. Where one stays there for ten seconds
    /// of pauses the cause is that; behind one that will be done at once, who reads goes on after so
    /// long. Once they are had it is not asked any more.
    pub fn look<R: Files<File = File>>(
        &mut self,
        files: &R,
        alloc: Global,
        folder: &str,
    ) -> Result<bool, Unmet> {
        let Some(mut lock) = self.lock.take() else {
            return Ok(true);
        };
        let answer = match self.need {
            Need::Nothing => Ok(true),
            Need::Read => self.look_shared(&lock),
            Need::Write => self.look_alone(&mut lock, files, alloc, folder, false),
            Need::Make => self.look_alone(&mut lock, files, alloc, folder, true),
            Need::Stay => self.look_to_stay(&mut lock, files, alloc, folder),
        };
        self.lock = Some(lock);
        answer
    }

    // Whether the folder is shared, or was waited for long enough.
    fn look_shared(&mut self, lock: &Lock) -> Result<bool, Unmet> {
        let is_over = self.has_waited();
        Ok(is_taken(lock.folder.try_lock_shared())? || is_over)
    }

    // Whether the folder and its files are locked to write.
    fn look_alone<R: Files<File = File>>(
        &mut self,
        lock: &mut Lock,
        files: &R,
        alloc: Global,
        folder: &str,
        make: bool,
    ) -> Result<bool, Unmet> {
        match lock.take(files, alloc, folder, make)? {
            Holder::Nobody => Ok(true),
            Holder::Short => Ok(false),
            Holder::Long if self.has_waited() => Err(Unmet::Cause(Cause::Held)),
            Holder::Long => Ok(false),
        }
    }

    // As `look_alone`, for one that stays: who reads goes on beside it.
    fn look_to_stay<R: Files<File = File>>(
        &mut self,
        lock: &mut Lock,
        files: &R,
        alloc: Global,
        folder: &str,
    ) -> Result<bool, Unmet> {
        if !self.is_locked {
            self.is_locked = self.look_alone(lock, files, alloc, folder, false)?;
            if !self.is_locked {
                return Ok(false);
            }
            self.looks = 0;
        }
        if lock.first.is_none() && lock.second.is_none() {
            return Ok(true);
        }
        // The folder is given up before it is shared. Who gets it between finds the files taken.
        if is_taken(lock.folder.try_lock_shared())? {
            return Ok(true);
        }
        if self.has_waited() {
            return Err(Unmet::Cause(Cause::Held));
        }
        Ok(false)
    }

    // Whether it has looked often enough, this look with it.
    fn has_waited(&mut self) -> bool {
        let has = self.looks >= MOST_LOOKS;
        self.looks = self.looks.saturating_add(1);
        has
    }

    /// The locks that were had; none of who needs nothing.
    pub fn into_lock(self) -> Option<Lock> {
        let Turn { lock, .. } = self;
        lock
    }
}

/// Looks and sleeps until the files of a folder are had as they are needed, or can't be.
pub fn wait_for_turn<R: Files<File = File> + Clock>(
    rt: &R,
    alloc: Global,
    folder: &str,
    need: Need,
) -> Result<Turn, Unmet> {
    let mut turn = Turn::new(rt, folder, need)?;
    for _ in 0..u64::MAX {
        if turn.look(rt, alloc, folder)? {
            return Ok(turn);
        }
        pause(rt);
    }
    Err(Unmet::Cause(Cause::Held))
}

/// Sleeps before one looks again.
pub fn pause<R: Clock>(clock: &R) {
    thread::sleep(clock, Duration::from_millis(PAUSE_MILLISECONDS));
}

// The folder, not locked yet.
fn unlocked<R: Files<File = File>>(files: &R, folder: &str) -> io::Result<Lock> {
    Ok(Lock {
        folder: open(files, Path::new(folder))?,
        first: None,
        second: None,
        is_held: Cell::new(true),
    })
}

// Whether a lock was taken; an error where it can't be had at all.
fn is_taken(answer: Result<(), TryLockError>) -> io::Result<bool> {
    match answer {
        Ok(()) => Ok(true),
        Err(TryLockError::WouldBlock) => Ok(false),
        Err(TryLockError::Error(e)) => Err(e),
    }
}

fn unlock(file: &Option<File>) {
    if let Some(file) = file {
        let _ = file.unlock();
    }
}

// Whether a file was locked, or is not there.
fn is_had(file: &Option<File>) -> io::Result<bool> {
    match file {
        Some(file) => is_taken(file.try_lock()),
        None => Ok(true),
    }
}

// Whether somebody has a file alone. This one's own lock ends with the call.
fn is_alone<R: Files<File = File>>(
    files: &R,
    alloc: Global,
    folder: &str,
    name: &str,
) -> io::Result<bool> {
    match opened(files, alloc, folder, name)? {
        Some(file) => Ok(!is_taken(file.try_lock_shared())?),
        None => Ok(false),
    }
}

// A file of a folder, where it is there.
fn opened<R: Files<File = File>>(
    files: &R,
    alloc: Global,
    folder: &str,
    name: &str,
) -> io::Result<Option<File>> {
    let path = Path::new(folder).join(alloc, name)?;
    if is_there(files, path.as_path())? {
        Ok(Some(open_to_lock(files, path.as_path())?))
    } else {
        Ok(None)
    }
}

// Makes the first file of a folder where it is not there. An empty one is as none.
fn make_file<R: Files<File = File>>(files: &R, alloc: Global, folder: &str) -> io::Result<()> {
    let path = Path::new(folder).join(alloc, "bsp.0")?;
    if !is_there(files, path.as_path())? {
        open_to_write(files, path.as_path(), true)?;
    }
    Ok(())
}
