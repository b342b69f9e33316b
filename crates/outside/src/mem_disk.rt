//! A disk in memory.
ghost use Rattle.std.specs.Prelude.{◌≡◌, ◌<◌, ◌≤◌, [], ◌++◌, ◌∷◌, None, Some, length, take};
ghost use Rattle.std.specs.Prelude.{vec_len, vec_capacity, is_err, IfOk, OnOk, OnErr};
ghost use Rattle.std.specs.Prelude.{if◌then◌else◌};
ghost use Rattle.std.specs.Option.{ForSome};
ghost use Rattle.outside.specs.Faults.{HasCause, one_more};
ghost use Rattle.outside.specs.Files.{file_of, with_file, IsImage};
ghost use Rattle.outside.specs.Outside.{DiskCall};
ghost use Rattle.outside.specs.Made.{DoesCalls};
ghost use Rattle.outside.specs.Disk.{RelatesTold, ReadsBytes, WritesFile, CutsFile, SyncsFile, overwritten};
ghost use Rattle.outside.specs.MemDisk.{two_of, fresh_disk, disk_files, files_of, bytes_of, wrote};
ghost use Rattle.outside.specs.MemDisk.{wrote_not, cut, cut_not, synced, dialled};
ghost use Rattle.outside.specs.MemDisk.{sent as bytes_sent, answered, hosted, reply_of, with_call};
ghost use Rattle.outside.specs.MemDisk.{bytes_each, fails_next, MakesChange};
ghost use Rattle.outside.specs.MemImage.{PicturesDisk};

use crate::due::Due;
use crate::failing::Failing;
use crate::image::image_of;
use crate::{Call, Disk, Failed, Pick, Reply};
use std::alloc::{AllocError, Global};
use std::marker::Model;

/// A disk in memory that keeps all calls that changed it, and fails at the calls of a list.
pub struct MemDisk {
    alloc: Global,
    start0: Vec<u8>,
    start1: Vec<u8>,
    file0: Vec<u8>,
    file1: Vec<u8>,
    calls: Vec<Call>,
    failing: Failing,
    stop: Option<u64>,
    faults: u64,
    starved: u64,
}

// Written out, so that whoever drops a disk proves one call.
impl Drop for MemDisk {
    fn drop(self) {
        let MemDisk {
            alloc: _,
            start0: _,
            start1: _,
            file0: _,
            file1: _,
            calls: _,
            failing: _,
            stop: _,
            faults: _,
            starved: _,
        } = self;
    }
}

impl Model for MemDisk {
    ghost use Rattle.std.specs.Prelude.{◌≡◌, map};
    ghost use Rattle.outside.specs.MemDisk.{MemDiskValue, two_of, change_of, kept_after, both_kept};
    ghost use Rattle.outside.specs.MemDisk.{bytes_of};

    ghost Value = { MemDiskValue };

    ghost view = { λ d. record {
      start = two_of d.start0.items d.start1.items;
      calls = map change_of d.calls.items;
      made = d.failing.made;
      failing = d.failing.failing;
      stop = d.stop;
      faults = d.faults;
      starved = d.starved;
    } };

    ghost invariant = { λ d. bytes_of (kept_after (both_kept (two_of d.start0.items d.start1.items))
        (map change_of d.calls.items)) ≡ two_of d.file0.items d.file1.items };
}

impl MemDisk {
    /// A disk with these two files, nothing pending in them.
    pub fn new(alloc: Global, file0: Vec<u8>, file1: Vec<u8>) -> Result<MemDisk, AllocError>
        ensures { IfOk result (λ d. d ≡ fresh_disk (two_of file0.items file1.items)) }
    {
        Ok(MemDisk {
            alloc,
            start0: file0.clone()?,
            start1: file1.clone()?,
            file0,
            file1,
            calls: Vec::new(alloc),
            failing: Failing::new(alloc),
            stop: None,
            faults: 0,
            starved: 0,
        })
    }

    /// The call of this number, counted from 0 over all calls made, is to fail.
    pub fn fail_at(&mut self, call: u64) -> Result<(), AllocError>
        ensures ok { OnOk result
            (self.new ≡ record self.old { failing = self.old.failing ++ call ∷ [] }) }
        ensures err { OnErr result (self.new ≡ self.old) }
    {
        self.failing.add(call)
    }

    /// From the call of this number on, counted from 0 over all calls made, every call fails and
    /// leaves no trace: a crash then leaves what it might have left before that call.
    pub fn stop_at(&mut self, call: u64)
        ensures { self.new ≡ record self.old { stop = Some call } }
    {
        self.stop = Some(call);
    }

    /// No call from now on is to fail.
    pub fn fail_none(&mut self)
        ensures { self.new ≡ record self.old { failing = []; stop = None } }
    {
        self.failing.clear();
        self.stop = None;
    }

    /// How many calls of a disk were made; it stands still at 2^64 - 1.
    pub fn calls(&self) -> u64
        ensures { result ≡ self.now.made }
    {
        self.failing.made()
    }

    /// The bytes of file 0 or 1 as a read gives them.
    pub fn file(&self, file: u8) -> &[u8]
        requires { file < 2 }
        ensures { result.now ≡ (file_of (files_of (disk_files self.now)) file).now }
    {
        if file == 0 { &self.file0 } else { &self.file1 }
    }

    /// How many calls found no memory; it stands still at 2^64 - 1.
    pub fn starved(&self) -> u64
        ensures { result ≡ self.now.starved }
    {
        self.starved
    }

    /// A fresh disk with one of the images that a crash now may leave.
    pub fn image(&self, pick: Pick) -> Result<MemDisk, AllocError>
        ensures picked { IfOk result (λ d. PicturesDisk pick (disk_files self.now) d) }
        ensures image { IfOk result (λ d. IsImage (files_of (disk_files self.now)) d.start) }
    {
        let first = image_of(self.alloc, &self.start0, &self.calls, 0, pick)?;
        let second = image_of(self.alloc, &self.start1, &self.calls, 1, pick)?;
        MemDisk::new(self.alloc, first, second)
    }
}

// The calls of a disk.
impl MemDisk {
    ghost use Rattle.outside.specs.MemDisk.{IsCallDue};

    // Counts a call, and says what is due at it.
    fn due(&mut self) -> Due
        ensures due { IsCallDue self.old result }
        ensures counts { self.new ≡ record self.old { made = one_more self.old.made } }
        ensures later { self.old.made ≤ self.new.made }
    {
        let made = self.failing.made();
        let stopped = self.stop.is_some_and(|stop| stop <= made);
        let listed = self.failing.next();
        if stopped {
            Due::Stop
        } else if listed {
            Due::Failure
        } else {
            Due::Fine
        }
    }

    // Counts a failure.
    fn fail(&mut self) -> Failed
        ensures faults { self.new ≡ record self.old { faults = one_more self.old.faults } }
        ensures later { self.old.faults ≤ self.new.faults }
    {
        self.faults = self.faults.saturating_add(1);
        Failed
    }

    // Counts a failure for want of memory.
    fn starve(&mut self) -> Failed
        ensures faults { self.new ≡ record self.old {
          faults = one_more self.old.faults;
          starved = one_more self.old.starved;
        } }
        ensures later { self.old.faults ≤ self.new.faults }
    {
        self.faults = self.faults.saturating_add(1);
        self.starved = self.starved.saturating_add(1);
        Failed
    }

    fn make_len(&mut self, file: u8) -> Result<u64, Failed>
        requires { file < 2 }
        ensures makes { MakesChange None None result self.old self.new }
        ensures fails { is_err result ≡ fails_next self.old }
        ensures value { IfOk result
            (λ n. n ≡ length (file_of (files_of (disk_files self.old)) file).now) }
    {
        match self.due() {
            Due::Fine => Ok(self.file(file).len() as u64),
            Due::Failure => Err(self.fail()),
            Due::Stop => Err(self.fail()),
        }
    }

    fn make_read(&mut self, file: u8, at: u64, buf: &mut [u8]) -> Result<usize, Failed>
        requires { file < 2 }
        ensures makes { MakesChange None None result self.old self.new }
        ensures fails { is_err result ≡ fails_next self.old }
        ensures bound { IfOk result (λ n. n ≤ length buf.new) }
        ensures bytes { IfOk result
            (λ n. ReadsBytes (file_of (files_of (disk_files self.old)) file).now at buf.new n) }
    {
        match self.due() {
            Due::Fine => Ok(read_from(self.file(file), at as usize, buf)),
            Due::Failure => Err(self.fail()),
            Due::Stop => Err(self.fail()),
        }
    }

    fn make_write(&mut self, file: u8, at: u64, bytes: &[u8]) -> Result<(), Failed>
        requires file { file < 2 }
        requires place { at ≤ length (file_of (bytes_of (disk_files self.old)) file) }
        ensures makes { MakesChange (Some (wrote file at bytes.now)) (Some (wrote_not file at bytes.now))
            result self.old self.new }
    {
        match self.due() {
            Due::Fine => match self.keep_write(file, at, bytes, false) {
                Ok(()) => Ok(()),
                Err(_) => Err(self.starve()),
            },
            Due::Failure => match self.keep_write(file, at, bytes, true) {
                Ok(()) => Err(self.fail()),
                Err(_) => Err(self.starve()),
            },
            Due::Stop => Err(self.fail()),
        }
    }

    fn make_cut(&mut self, file: u8, len: u64) -> Result<(), Failed>
        requires { file < 2 }
        ensures makes { MakesChange (Some (cut file len)) (Some (cut_not file len)) result self.old
            self.new }
    {
        match self.due() {
            Due::Fine => match self.keep_cut(file, len, false) {
                Ok(()) => Ok(()),
                Err(_) => Err(self.starve()),
            },
            Due::Failure => match self.keep_cut(file, len, true) {
                Ok(()) => Err(self.fail()),
                Err(_) => Err(self.starve()),
            },
            Due::Stop => Err(self.fail()),
        }
    }

    fn make_sync(&mut self, file: u8) -> Result<(), Failed>
        requires { file < 2 }
        ensures makes { MakesChange (Some (synced file)) None result self.old self.new }
    {
        match self.due() {
            Due::Fine => match self.keep_sync(file) {
                Ok(()) => Ok(()),
                Err(_) => Err(self.starve()),
            },
            Due::Failure => Err(self.fail()),
            Due::Stop => Err(self.fail()),
        }
    }

    // Writes the bytes, unless the call fails, and keeps the call.
    fn keep_write(&mut self, file: u8, at: u64, bytes: &[u8], fails: bool) -> Result<(), AllocError>
        requires file { file < 2 }
        requires place { at ≤ length (file_of (bytes_of (disk_files self.old)) file) }
        ensures ok { OnOk result
            (self.new ≡ record self.old {
              calls = self.old.calls
                  ++ (if fails then wrote_not file at bytes.now else wrote file at bytes.now) ∷ [];
            }) }
        ensures err { OnErr result (self.new ≡ self.old) }
    {
        let kept = Vec::from_slice(self.alloc, bytes)?;
        self.calls.reserve(1)?;
        if fails {
            note(&mut self.calls, Call::WroteNot(file, at, kept));
        } else {
            put_in(&mut self.file0, &mut self.file1, file, at as usize, bytes)?;
            note(&mut self.calls, Call::Wrote(file, at, kept));
        }
        Ok(())
    }

    // Cuts the file, unless the call fails, and keeps the call.
    fn keep_cut(&mut self, file: u8, len: u64, fails: bool) -> Result<(), AllocError>
        requires { file < 2 }
        ensures ok { OnOk result
            (self.new ≡ record self.old {
              calls = self.old.calls ++ (if fails then cut_not file len else cut file len) ∷ [];
            }) }
        ensures err { OnErr result (self.new ≡ self.old) }
    {
        self.calls.reserve(1)?;
        if fails {
            note(&mut self.calls, Call::CutNot(file, len));
        } else {
            cut_in(&mut self.file0, &mut self.file1, file, len as usize);
            note(&mut self.calls, Call::Cut(file, len));
        }
        Ok(())
    }

    fn keep_sync(&mut self, file: u8) -> Result<(), AllocError>
        requires { file < 2 }
        ensures ok { OnOk result
            (self.new ≡ record self.old { calls = self.old.calls ++ synced file ∷ [] }) }
        ensures err { OnErr result (self.new ≡ self.old) }
    {
        self.calls.push(Call::Synced(file))?;
        Ok(())
    }
}

// What a host over this disk keeps among the calls.
impl MemDisk {
    // A host was made, which has no links.
    pub(crate) fn keep_hosted(&mut self) -> Result<(), AllocError>
        ensures ok { OnOk result (self.new ≡ with_call hosted self.old) }
        ensures err { OnErr result (self.new ≡ self.old) }
    {
        self.calls.push(Call::Hosted)?;
        Ok(())
    }

    // A link was made, and nothing was sent on it.
    pub(crate) fn keep_dial(
        &mut self,
        spec: &[u8],
        sent: &mut Vec<Vec<u8>>,
    ) -> Result<(), AllocError>
        ensures ok { OnOk result (self.new ≡ with_call (dialled spec.now) self.old) }
        ensures sent { OnOk result (bytes_each sent.new.items ≡ bytes_each sent.old.items ++ []
            ∷ []) }
        ensures err { OnErr result (self.new ≡ self.old) }
        ensures same { OnErr result (sent.new.items ≡ sent.old.items) }
    {
        let kept = Vec::from_slice(self.alloc, spec)?;
        self.calls.reserve(1)?;
        sent.push(Vec::new(self.alloc))?;
        note(&mut self.calls, Call::Dialled(kept));
        Ok(())
    }

    // Bytes were sent on a link.
    pub(crate) fn keep_send(
        &mut self,
        link: u8,
        bytes: &[u8],
        sent: &mut Vec<u8>,
    ) -> Result<(), AllocError>
        ensures ok { OnOk result (self.new ≡ with_call (bytes_sent link bytes.now) self.old) }
        ensures sent { OnOk result (sent.new.items ≡ sent.old.items ++ bytes.now) }
        ensures err { OnErr result (self.new ≡ self.old) }
        ensures same { OnErr result (sent.new.items ≡ sent.old.items) }
    {
        let copy = Vec::from_slice(self.alloc, bytes)?;
        self.calls.reserve(1)?;
        sent.extend_from_slice(bytes)?;
        note(&mut self.calls, Call::Sent(link, copy));
        Ok(())
    }

    // A link answered a buffer of so many bytes, after so many failures.
    pub(crate) fn keep_answer(
        &mut self,
        link: u8,
        failures: u64,
        room: usize,
        reply: Reply,
    ) -> Result<(), AllocError>
        ensures ok { OnOk result
            (self.new ≡ with_call
            (answered link (record { failures = failures; room = room; reply = reply_of reply }))
            self.old) }
        ensures err { OnErr result (self.new ≡ self.old) }
    {
        self.calls
            .push(Call::Answered(link, failures, room, reply))?;
        Ok(())
    }
}

// Keeps a call for which there is room.
fn note(calls: &mut Vec<Call>, call: Call)
    requires { vec_len calls.old < vec_capacity calls.old }
    ensures { calls.new.items ≡ calls.old.items ++ call ∷ [] }
{
    calls.push(call).unwrap();
}

// Reads as many bytes as there are from a place on, or as the buffer has room for.
fn read_from(bytes: &[u8], at: usize, buf: &mut [u8]) -> usize
    ensures bound { result ≤ length buf.new }
    ensures reads { ReadsBytes bytes.now at buf.new result }
{
    let n = buf.len().min(bytes.len().saturating_sub(at));
    if n > 0 {
        buf[..n].copy_from_slice(&bytes[at..at + n]);
    }
    n
}

/// Puts bytes over those from a place on.
pub fn put_bytes(to: &mut Vec<u8>, at: usize, bytes: &[u8]) -> Result<(), AllocError>
    requires { at ≤ vec_len to.old }
    ensures ok { OnOk result (to.new.items ≡ overwritten to.old.items at bytes.now) }
    ensures err { OnErr result (to.new.items ≡ to.old.items) }
{
    let over = bytes.len().min(to.len() - at);
    to.extend_from_slice(&bytes[over..])?;
    to.as_mut_slice()[at..at + over].copy_from_slice(&bytes[..over]);
    Ok(())
}

// The same in one of two files.
fn put_in(
    file0: &mut Vec<u8>,
    file1: &mut Vec<u8>,
    file: u8,
    at: usize,
    bytes: &[u8],
) -> Result<(), AllocError>
    requires file { file < 2 }
    requires place { at ≤ length (file_of (two_of file0.old.items file1.old.items) file) }
    ensures ok { OnOk result (two_of file0.new.items file1.new.items ≡ with_file
        (two_of file0.old.items file1.old.items) file
        (overwritten (file_of (two_of file0.old.items file1.old.items) file) at bytes.now)) }
    ensures err { OnErr result (two_of file0.new.items file1.new.items ≡ two_of file0.old.items
        file1.old.items) }
{
    if file == 0 {
        put_bytes(file0, at, bytes)
    } else {
        put_bytes(file1, at, bytes)
    }
}

fn cut_in(file0: &mut Vec<u8>, file1: &mut Vec<u8>, file: u8, len: usize)
    requires { file < 2 }
    ensures { two_of file0.new.items file1.new.items ≡ with_file
        (two_of file0.old.items file1.old.items) file
        (take len (file_of (two_of file0.old.items file1.old.items) file)) }
{
    if file == 0 {
        file0.truncate(len);
    } else {
        file1.truncate(len);
    }
}

impl Disk for MemDisk {
    ghost use Rattle.outside.specs.MemTold.{disk_told};

    ghost tells = { disk_told };

    fn len(&mut self, file: u8) -> Result<u64, Failed>
        requires { file < 2 }
        ensures call { DiskCall (disk_told self.old) (disk_told self.new) }
        ensures cause { HasCause self.old.faults self.new.faults result }
        ensures does { DoesCalls (None ∷ []) result (disk_told self.old) (disk_told self.new) }
        ensures same { (disk_told self.new).files ≡ (disk_told self.old).files }
        ensures length { IfOk result
            (λ n. ForSome (disk_told self.old).files (λ two. n ≡ length (file_of two file).now)) }

        // It fails exactly where the list or the stop says so.
        ensures fails { is_err result ≡ fails_next self.old }
        ensures makes { MakesChange None None result self.old self.new }
    {
        self.make_len(file)
    }

    fn read_at(&mut self, file: u8, at: u64, buf: &mut [u8]) -> Result<usize, Failed>
        requires { file < 2 }
        ensures call { DiskCall (disk_told self.old) (disk_told self.new) }
        ensures cause { HasCause self.old.faults self.new.faults result }
        ensures does { DoesCalls (None ∷ []) result (disk_told self.old) (disk_told self.new) }
        ensures same { (disk_told self.new).files ≡ (disk_told self.old).files }
        ensures bound { IfOk result (λ n. n ≤ length buf.new) }
        ensures bytes { IfOk result
            (λ n. ForSome (disk_told self.old).files
            (λ two. ReadsBytes (file_of two file).now at buf.new n)) }

        // It fails exactly where the list or the stop says so.
        ensures fails { is_err result ≡ fails_next self.old }
        ensures makes { MakesChange None None result self.old self.new }
    {
        self.make_read(file, at, buf)
    }

    fn write_at(&mut self, file: u8, at: u64, bytes: &[u8]) -> Result<(), Failed>
        requires file { file < 2 }
        requires place { ForSome (disk_told self.old).files
            (λ two. at ≤ length (file_of two file).now) }
        ensures call { DiskCall (disk_told self.old) (disk_told self.new) }
        ensures cause { HasCause self.old.faults self.new.faults result }
        ensures does { DoesCalls (Some (wrote file at bytes.now) ∷ []) result (disk_told self.old) (disk_told self.new) }
        ensures written { RelatesTold (WritesFile file at bytes.now result) (disk_told self.old).files
            (disk_told self.new).files }

        // It fails exactly where the list or the stop says so, or there was no memory.
        ensures makes { MakesChange (Some (wrote file at bytes.now)) (Some (wrote_not file at bytes.now))
            result self.old self.new }
    {
        self.make_write(file, at, bytes)
    }

    fn cut(&mut self, file: u8, len: u64) -> Result<(), Failed>
        requires file { file < 2 }
        requires length { ForSome (disk_told self.old).files
            (λ two. len ≤ length (file_of two file).now) }
        ensures call { DiskCall (disk_told self.old) (disk_told self.new) }
        ensures cause { HasCause self.old.faults self.new.faults result }
        ensures does { DoesCalls (Some (cut file len) ∷ []) result (disk_told self.old) (disk_told self.new) }
        ensures cut { RelatesTold (CutsFile file len result) (disk_told self.old).files
            (disk_told self.new).files }

        // It fails exactly where the list or the stop says so, or there was no memory.
        ensures makes { MakesChange (Some (cut file len)) (Some (cut_not file len)) result self.old
            self.new }
    {
        self.make_cut(file, len)
    }

    fn sync(&mut self, file: u8) -> Result<(), Failed>
        requires { file < 2 }
        ensures call { DiskCall (disk_told self.old) (disk_told self.new) }
        ensures cause { HasCause self.old.faults self.new.faults result }
        ensures does { DoesCalls (Some (synced file) ∷ []) result (disk_told self.old) (disk_told self.new) }
        ensures synced { RelatesTold (SyncsFile file result) (disk_told self.old).files
            (disk_told self.new).files }

        // It fails exactly where the list or the stop says so, or there was no memory.
        ensures makes { MakesChange (Some (synced file)) None result self.old self.new }
    {
        self.make_sync(file)
    }
}
