//! The disk, the links and the clock of this machine.
ghost use Rattle.std.specs.Prelude.{◌≡◌, ◌+◌, ◌<◌, ◌≤◌, IfOk, Ok, MatchResult, OnOk, OnErr};
ghost use Rattle.std.specs.Prelude.{vec_len, false};
ghost use Rattle.outside_real.specs.Need.{IsUnwritten, writes};
ghost use Rattle.outside.specs.declared.limits.TheConstants.{LINKS};
ghost use Rattle.outside.specs.Faults.{HasCause};

use crate::cause::{Cause, Unmet};
use crate::copying::copy_both;
use crate::link::Link;
use crate::lock::{Lock, Turn, wait_for_turn};
use crate::need::Need;
use crate::random::random_bytes;
use crate::real_file::sync_above;
use crate::store_file::StoreFile;
use outside::{Disk, Failed, Heard, Host, LINKS, raise_at};
use std::alloc::{AllocError, Global};
use std::fs::{File, Files};
use std::io;
use std::io::ErrorKind;
use std::net::Net;
use std::rc::Rc;
use std::rt::Runtime;
use std::time::Clock;

/// A disk of the files `bsp.0` and `bsp.1` in a folder, the links and the clock of this machine. It
/// tells its counts alone: of its links, and of the failures of the disk and of each link. After a
/// sync of a file that failed each call on that file fails, and so does each call on a file once the
/// locks were let go of. A read on a socket waits for 100 ms and then answers `Idle`, one on the
/// standard input never does; sends to a peer wait 100 ms for each 32,768 bytes, and half a minute
/// beside that in all.
#[derive(Drop)]
pub struct FileHost<R: Runtime + Net> {
    rt: R,
    alloc: Global,
    first: StoreFile,
    second: StoreFile,
    lock: Option<Rc<Lock>>,
    cause: Option<Cause>,
    disk_faults: u64,
    links: Vec<Link<R>>,
    link_faults: [u64; LINKS],
    ghost few: { vec_len links ≤ LINKS },
}

impl<R: Runtime + AllocGlobal + Net> FileHost<R> {
    /// A host without links over the files in this folder, which need not be there, and which nobody
    /// else writes.
    pub fn new(rt: R, folder: &str) -> Result<FileHost<R>, AllocError>
        ensures no_links { IfOk result (λ h. vec_len h.links ≡ 0) }
    {
        FileHost::held(rt, folder, None)
    }

    // As `new`, for as long as these locks are held.
    fn held(rt: R, folder: &str, lock: Option<Rc<Lock>>) -> Result<FileHost<R>, AllocError>
        ensures no_links { IfOk result (λ h. vec_len h.links ≡ 0) }
    {
        let alloc = rt.alloc();
        let first = StoreFile::open(alloc, folder, "bsp.0")?;
        let second = StoreFile::open(alloc, folder, "bsp.1")?;
        Ok(FileHost::over(rt, first, second, lock, None))
    }

    /// A host without links that touches no file: each call on one fails.
    pub fn shut(rt: R, folder: &str) -> Result<FileHost<R>, AllocError>
        ensures no_links { IfOk result (λ h. vec_len h.links ≡ 0) }
        ensures reads { IfOk result (λ h. IsUnwritten h.first.may_write h.second.may_write) }
    {
        FileHost::shut_for(rt, folder, None)
    }

    // As `shut`, and why.
    fn shut_for(rt: R, folder: &str, cause: Option<Cause>) -> Result<FileHost<R>, AllocError>
        ensures no_links { IfOk result (λ h. vec_len h.links ≡ 0) }
        ensures reads { IfOk result (λ h. IsUnwritten h.first.may_write h.second.may_write) }
    {
        let alloc = rt.alloc();
        let first = StoreFile::shut(alloc, folder, "bsp.0")?;
        let second = StoreFile::shut(alloc, folder, "bsp.1")?;
        Ok(FileHost::over(rt, first, second, None, cause))
    }

    fn over(
        rt: R,
        first: StoreFile,
        second: StoreFile,
        lock: Option<Rc<Lock>>,
        cause: Option<Cause>,
    ) -> FileHost<R>
        ensures no_links { vec_len result.links ≡ 0 }
        ensures first { result.first ≡ first }
        ensures second { result.second ≡ second }
    {
        let alloc = rt.alloc();
        FileHost {
            rt,
            alloc,
            first,
            second,
            lock,
            cause,
            disk_faults: 0,
            links: Vec::new(alloc),
            link_faults: [0; LINKS],
        }
    }
}

impl<R: Runtime + Files<File = File> + AllocGlobal + Net> FileHost<R> {
    /// A host without links for what is needed of the files in this folder, among other processes
    /// that call this: what is read stood at one time, and nobody else writes what is written here,
    /// until the host is dropped, its locks are let go of or the process has ended. It waits for
    /// those that will be done at once, and to write, ten seconds for one that stays. Where the
    /// files can't be had so, each call on them fails, and the host says why.
    pub fn with(rt: R, folder: &str, need: Need) -> Result<FileHost<R>, AllocError>
        ensures no_links { IfOk result (λ h. vec_len h.links ≡ 0) }
        ensures reads { writes need ≡ false
            → IfOk result (λ h. IsUnwritten h.first.may_write h.second.may_write) }
    {
        let turn = wait_for_turn(&rt, rt.alloc(), folder, need);
        FileHost::had(rt, folder, need, turn)
    }

    /// As `with`, once its turn came or the files can't be had.
    pub fn had(
        rt: R,
        folder: &str,
        need: Need,
        turn: Result<Turn, Unmet>,
    ) -> Result<FileHost<R>, AllocError>
        ensures no_links { IfOk result (λ h. vec_len h.links ≡ 0) }
        ensures reads { writes need ≡ false
            → IfOk result (λ h. IsUnwritten h.first.may_write h.second.may_write) }
    {
        match need {
            Need::Nothing => FileHost::shut(rt, folder),
            Need::Read => FileHost::reading(rt, folder, turn),
            Need::Write | Need::Stay => FileHost::locked(rt, folder, turn),
            Need::Make => {
                let turn = made(&rt, rt.alloc(), folder, turn);
                FileHost::locked(rt, folder, turn)
            }
        }
    }

    // Over copies of the files, for which others that will be done at once were waited for.
    fn reading(rt: R, folder: &str, turn: Result<Turn, Unmet>) -> Result<FileHost<R>, AllocError>
        ensures no_links { IfOk result (λ h. vec_len h.links ≡ 0) }
        ensures reads { IfOk result (λ h. IsUnwritten h.first.may_write h.second.may_write) }
    {
        match copied(&rt, rt.alloc(), folder, turn) {
            Ok((first, second)) => FileHost::over_copies(rt, folder, first, second),
            Err(Unmet::Memory) => Err(AllocError),
            Err(Unmet::Cause(cause)) => FileHost::shut_for(rt, folder, Some(cause)),
        }
    }

    // Over these copies of the files.
    fn over_copies(
        rt: R,
        folder: &str,
        first: Vec<u8>,
        second: Vec<u8>,
    ) -> Result<FileHost<R>, AllocError>
        ensures no_links { IfOk result (λ h. vec_len h.links ≡ 0) }
        ensures reads { IfOk result (λ h. IsUnwritten h.first.may_write h.second.may_write) }
    {
        let mut host = FileHost::shut(rt, folder)?;
        host.first.read_from(first);
        host.second.read_from(second);
        Ok(host)
    }

    // Over the files themselves, for as long as the lock is held; over none without it.
    fn locked(rt: R, folder: &str, turn: Result<Turn, Unmet>) -> Result<FileHost<R>, AllocError>
        ensures no_links { IfOk result (λ h. vec_len h.links ≡ 0) }
    {
        match turn {
            Ok(turn) => {
                let lock = match turn.into_lock() {
                    Some(lock) => Some(Rc::new(rt.alloc(), lock)?),
                    None => None,
                };
                FileHost::held(rt, folder, lock)
            }
            Err(Unmet::Memory) => Err(AllocError),
            Err(Unmet::Cause(cause)) => FileHost::shut_for(rt, folder, Some(cause)),
        }
    }
}

// Both files as they stood at one time. The lock ends with the call, since nothing is read later.
fn copied<R: Files<File = File> + Clock>(
    rt: &R,
    alloc: Global,
    folder: &str,
    turn: Result<Turn, Unmet>,
) -> Result<(Vec<u8>, Vec<u8>), Unmet> {
    let _turn = turn?;
    Ok(copy_both(rt, alloc, folder)?)
}

// The turn, in a folder that may be new.
fn made<R: Files<File = File> + Clock>(
    rt: &R,
    alloc: Global,
    folder: &str,
    turn: Result<Turn, Unmet>,
) -> Result<Turn, Unmet> {
    let turn = turn?;
    sync_above(rt, alloc, folder)?;
    Ok(turn)
}

impl<R: Runtime + Net> FileHost<R> {
    /// What the host runs on.
    pub fn runtime(&self) -> &R {
        &self.rt
    }

    /// Why the first call on a file that failed did; none where none did.
    pub fn cause(&self) -> Option<Cause> {
        self.cause
    }

    /// The locks on the files, where there are any. Once they are let go of each call on a file
    /// fails.
    pub fn lock(&self) -> Result<Option<Rc<Lock>>, AllocError> {
        self.lock.clone()
    }
}

impl<R: Runtime + Net> FileHost<R> {
    // What a call on a file answered; a failure is counted.
    fn answer<T>(&mut self, answer: io::Result<T>) -> Result<T, Failed>
        ensures value { MatchResult result (λ x. answer ≡ Ok x) (λ _. Unit {0}) }
        ensures cause { HasCause self.old.disk_faults self.new.disk_faults result }
        ensures links { self.new.links ≡ self.old.links }
        ensures faults { self.new.link_faults ≡ self.old.link_faults }
    {
        match answer {
            Ok(x) => Ok(x),
            Err(e) => {
                self.cause = self.cause.or(Some(Cause::of(&e)));
                self.disk_faults = self.disk_faults.saturating_add(1);
                Err(Failed)
            }
        }
    }

    // Makes the next link, or none.
    fn make_link(&mut self, spec: &str) -> io::Result<()>
        requires { vec_len self.old.links < LINKS }
        ensures ok { OnOk result (vec_len self.new.links ≡ vec_len self.old.links + 1) }
        ensures err { OnErr result (vec_len self.new.links ≡ vec_len self.old.links) }
        ensures faults { self.new.link_faults ≡ self.old.link_faults }
        ensures disk_faults { self.new.disk_faults ≡ self.old.disk_faults }
    {
        let link = Link::dial(&self.rt, self.alloc, spec)?;
        self.links.push(link)?;
        Ok(())
    }
}

impl<R: Runtime + Files<File = File> + Net> Disk for FileHost<R> {
    ghost use Rattle.std.specs.Prelude.{vec_len};
    ghost use Rattle.outside.specs.Silent.{silent};

    ghost tells = { λ h. silent h.disk_faults (vec_len h.links) h.link_faults };

    fn len(&mut self, file: u8) -> Result<u64, Failed> {
        let answer = match numbered(&self.lock, &mut self.first, &mut self.second, file) {
            Ok(it) => it.len(&self.rt),
            Err(e) => Err(e),
        };
        self.answer(answer)
    }

    fn read_at(&mut self, file: u8, at: u64, buf: &mut [u8]) -> Result<usize, Failed> {
        let answer = match numbered(&self.lock, &mut self.first, &mut self.second, file) {
            Ok(it) => it.read_at(&self.rt, at, buf),
            Err(e) => Err(e),
        };
        self.answer(answer)
    }

    fn write_at(&mut self, file: u8, at: u64, bytes: &[u8]) -> Result<(), Failed> {
        let answer = match numbered(&self.lock, &mut self.first, &mut self.second, file) {
            Ok(it) => it.write_at(&self.rt, at, bytes),
            Err(e) => Err(e),
        };
        self.answer(answer)
    }

    fn cut(&mut self, file: u8, len: u64) -> Result<(), Failed> {
        let answer = match numbered(&self.lock, &mut self.first, &mut self.second, file) {
            Ok(it) => it.cut(&self.rt, len),
            Err(e) => Err(e),
        };
        self.answer(answer)
    }

    fn sync(&mut self, file: u8) -> Result<(), Failed> {
        let answer = match numbered(&self.lock, &mut self.first, &mut self.second, file) {
            Ok(it) => it.sync(&self.rt),
            Err(e) => Err(e),
        };
        self.answer(answer)
    }
}

impl<R: Runtime + Files<File = File> + Net> Host for FileHost<R> {
    fn dial(&mut self, spec: &str) -> Result<u8, Failed> {
        let number = self.links.len();
        match self.make_link(spec) {
            Ok(()) => Ok(number as u8),
            Err(_) => {
                raise_at(&mut self.link_faults, self.links.len());
                Err(Failed)
            }
        }
    }

    fn nonce(&mut self, link: u8) -> Result<[u8; 16], Failed> {
        match random_bytes(&self.rt) {
            Ok(bytes) => Ok(bytes),
            Err(_) => {
                raise_at(&mut self.link_faults, link as usize);
                Err(Failed)
            }
        }
    }

    fn recv(&mut self, link: u8, buf: &mut [u8]) -> Heard {
        let number = link as usize;
        match self.links[number].hear(buf) {
            Heard::Failed => {
                raise_at(&mut self.link_faults, number);
                Heard::Failed
            }
            heard => heard,
        }
    }

    fn send(&mut self, link: u8, bytes: &[u8]) -> Result<(), Failed> {
        let number = link as usize;
        match self.links[number].send(&self.rt, bytes) {
            Ok(()) => Ok(()),
            Err(fault) => {
                raise_at(&mut self.link_faults, number);
                Err(fault)
            }
        }
    }

    fn hang_up(&mut self, link: u8) {
        self.links[link as usize] = Link::Over;
    }

    fn now(&mut self) -> u64 {
        milliseconds(&self.rt)
    }
}

// The file of this number, unless its locks were let go of.
fn numbered<'a>(
    lock: &Option<Rc<Lock>>,
    first: &'a mut StoreFile,
    second: &'a mut StoreFile,
    file: u8,
) -> io::Result<&'a mut StoreFile> {
    match lock {
        Some(lock) if !lock.is_held() => Err(ErrorKind::NotConnected.into()),
        _ if file == 0 => Ok(first),
        _ => Ok(second),
    }
}

// The time since 1970, and 0 before it.
fn milliseconds(clock: &impl Clock) -> u64 {
    match clock.since_1970() {
        Ok(time) => u64::try_from(time.as_millis()).unwrap_or(u64::MAX),
        Err(_) => 0,
    }
}
