//! The journal's file: its frames are read in order, and then further ones are added.
ghost use Rattle.std.specs.Prelude.{◌≡◌, ◌+◌, ◌<◌, ◌≤◌, true, drop, max, Some, length, OnOk, OnErr, IfOk};
ghost use Rattle.std.specs.Prelude.{IsErrOf, vec_len, [], ◌∷◌};
ghost use Rattle.frame_journal.specs.Header.{StartsJournal};
ghost use Rattle.frame_journal.specs.Next.{IsNextFrame, MovesReader, OnTrue, ReadsNext};
ghost use Rattle.frame_journal.specs.Journal.{fresh_journal, is_format, rewound};
ghost use Rattle.std.specs.Option.{ForSome};
ghost use Rattle.outside.specs.Faults.{HasCause, CountRose};
ghost use Rattle.outside.specs.Files.{Two, File, file_of, read_files};
ghost use Rattle.outside.specs.Links.{sent_of};
ghost use Rattle.outside.specs.Outside.{DiskRun, OnlyReads, MakesCalls};
ghost use Rattle.outside.specs.Made.{DoesCalls};
ghost use Rattle.outside.specs.Disk.{RelatesTold};
ghost use Rattle.outside.specs.Frames.{IsAtRest};
ghost use Rattle.outside.specs.Steps.{PassedMoments};
ghost use Rattle.frame_journal.specs.Appends.{append_calls, group_calls};
ghost use Rattle.frame_journal.specs.Append.{IsFramed, AppendsFrame, BeforeOrWith};
ghost use Rattle.frame_journal.specs.Group.{AppendsFrames, BeforeOrWithAll, IsGroup, flush_calls};
ghost use Rattle.frame_journal.specs.Group.{flushed, group_len, moved_on};
ghost use Rattle.frame_journal.specs.Create.{LeavesClosed};

use crate::frame::next_at;
use crate::gates::open_behind;
use crate::group::Group;
use crate::header::journal_of;
use crate::{DiskFault, FrameFault, StartFault, is_format, read_header};
use outside::{Disk, MAX_JOURNAL, Place};
use std::marker::Model;

/// A journal's file, read up to a gate.
#[derive(Drop)]
pub struct Journal {
    file: u8,
    format: u8,
    generation: u64,
    end: u64,
    len: u64,
    last: u64,
}

impl Model for Journal {
    ghost use Rattle.std.specs.Prelude.{◌≡◌, ◌<◌, ◌≤◌, true};
    ghost use Rattle.outside.specs.declared.limits.TheConstants.{MAX_JOURNAL};
    ghost use Rattle.frame_journal.specs.Journal.{JournalValue, is_format};

    ghost Value = { JournalValue };

    ghost view = { λ j. record {
      file = j.file;
      format = j.format;
      generation = j.generation;
      end = j.end;
      len = j.len;
      last = j.last;
    } };

    ghost invariant = { λ j. (j.file < 2) × (15 ≤ j.end) × (j.end ≤ MAX_JOURNAL)
        × (is_format j.format ≡ true) };
}

impl Journal {
    /// Finds the journal's file: the one with an open header, of two the one with the greater
    /// generation, of two equal ones file 0. `NoStore` comes exactly where no header is open,
    /// `Damaged` exactly where that file's format is no format of a journal (`is_format`), at the
    /// format's place, 5.
    pub fn start<D: Disk>(disk: &mut D) -> Result<Journal, StartFault>
        ensures start { ForSome (D.tells disk.old).files (λ two. StartsJournal (read_files two) result) }
        ensures fresh { IfOk result (λ j. (j.file < 2) × (j.end ≡ 15)) }
        ensures looks { OnlyReads (D.tells disk.old) (D.tells disk.new) }
        ensures later { (D.tells disk.old).disk_faults ≤ (D.tells disk.new).disk_faults }
        ensures fault { IsErrOf result StartFault.DiskFault
            → CountRose (D.tells disk.old).disk_faults (D.tells disk.new).disk_faults }
        ensures calls { MakesCalls 3 result (D.tells disk.old) (D.tells disk.new) }
    {
        let first = read_header(disk, 0)?;
        let second = read_header(disk, 1)?;
        let Some((file, header)) = journal_of(first, second) else {
            return Err(StartFault::NoStore);
        };
        if !is_format(header.format) {
            return Err(StartFault::Damaged(Place { file, at: 5 }));
        }
        let len = disk.len(file)?;
        Ok(Journal {
            file,
            format: header.format,
            generation: header.generation,
            end: 15,
            len,
            last: 0,
        })
    }

    /// The journal of this format and generation in a file that was prepared with them and has no
    /// frame, to which frames may be added. Nothing is asked of the file here: `append` asks of the
    /// disk that it is at rest at the journal's end, as `prepare` leaves it.
    pub fn fresh(file: u8, format: u8, generation: u64) -> Journal
        requires file { file < 2 }
        requires format { is_format format ≡ true }
        ensures { result ≡ fresh_journal file format generation }
    {
        Journal {
            file,
            format,
            generation,
            end: 15,
            len: 15,
            last: 0,
        }
    }

    /// A reader of the same file from its first frame's gate on, at place 14.
    pub fn rewind(&self) -> Journal
        ensures { result ≡ rewound self.now }
    {
        Journal {
            file: self.file,
            format: self.format,
            generation: self.generation,
            end: 15,
            len: self.len,
            last: 0,
        }
    }

    /// Reads the next frame's payload into `to`, which afterwards holds it alone; `false` exactly
    /// at the first closed gate. `Damaged` comes exactly where no gate or no whole frame stands at
    /// the place. After a fault the reader is unchanged, and nothing is said of `to`. It makes two
    /// calls of the disk for a frame, and one at the gate.
    pub fn next_frame<D: Disk>(
        &mut self,
        disk: &mut D,
        to: &mut Vec<u8>,
    ) -> Result<bool, FrameFault>
        requires { ForSome (D.tells disk.old).files
            (λ two. length (file_of two self.old.file).now ≡ self.old.len) }
        ensures next { ForSome (D.tells disk.old).files
            (λ two. IsNextFrame (file_of two self.old.file).now self.old self.new to.new.items result) }
        ensures moves { MovesReader self.old self.new result }
        ensures size { OnTrue result (self.new.end ≡ self.old.end + 5 + vec_len to.new) }
        ensures looks { OnlyReads (D.tells disk.old) (D.tells disk.new) }
        ensures later { (D.tells disk.old).disk_faults ≤ (D.tells disk.new).disk_faults }
        ensures fault { IsErrOf result FrameFault.DiskFault
            → CountRose (D.tells disk.old).disk_faults (D.tells disk.new).disk_faults }
        ensures calls { ReadsNext result (D.tells disk.old) (D.tells disk.new) }
    {
        let place = self.end - 1;
        match next_at(disk, self.file, place, self.len, to) {
            Ok(Some(size)) => {
                self.last = place;
                self.end = place + 6 + u64::from(size);
                Ok(true)
            }
            Ok(None) => Ok(false),
            Err(fault) => Err(fault),
        }
    }

    /// The place of the last frame read.
    pub fn place(&self) -> Place
        requires { 14 ≤ self.now.last }
        ensures { (result.file ≡ self.now.file) × (result.at ≡ self.now.last) }
    {
        Place {
            file: self.file,
            at: self.last,
        }
    }

    /// Adds a frame at the closed gate, in four calls of the disk. `framed` is the payload's length
    /// in four bytes, big-endian, the payload of 1 to `MAX_FRAME` bytes, and a zero byte. At each
    /// moment the frames are those before or those with the new one whole; after `Ok` every crash
    /// leaves it.
    pub fn append<D: Disk>(&mut self, disk: &mut D, framed: &[u8]) -> Result<(), DiskFault>
        requires framed { IsFramed framed.now }
        requires room { self.old.end + length framed.now ≤ MAX_JOURNAL }
        requires fits { ForSome (D.tells disk.old).files
            (λ two. IsAtRest two self.old.file self.old.end) }
        ensures ok { OnOk result
            (self.new ≡ record self.old {
              end = self.old.end + length framed.now;
              len = max self.old.len (self.old.end + length framed.now);
            }) }
        ensures err { OnErr result (self.new ≡ self.old) }
        ensures appended { OnOk result (RelatesTold (AppendsFrame self.old.file self.old.end framed.now)
            (D.tells disk.old).files (D.tells disk.new).files) }
        ensures any_moment { (two : Two File) → (D.tells disk.old).files ≡ Some two
            → PassedMoments two (D.tells disk.old) (D.tells disk.new) self.old.file
            (BeforeOrWith (file_of two self.old.file).now self.old.end framed.now) }
        ensures leaves { RelatesTold (LeavesClosed self.old.file) (D.tells disk.old).files
            (D.tells disk.new).files }
        ensures run { DiskRun (D.tells disk.old) (D.tells disk.new) }
        ensures fault { HasCause (D.tells disk.old).disk_faults (D.tells disk.new).disk_faults
            result }
        ensures calls { MakesCalls 4 result (D.tells disk.old) (D.tells disk.new) }
        ensures does { DoesCalls (append_calls self.old.file self.old.end framed.now)
            result (D.tells disk.old) (D.tells disk.new) }
    {
        open_behind(disk, self.file, self.end, framed)?;
        self.end += framed.len() as u64;
        self.len = self.len.max(self.end);
        Ok(())
    }

    /// Adds several frames at once at the closed gate, in four calls of the disk whatever their
    /// number. `group` is the frames, each with its gate open, and a closed gate behind them: all of
    /// it but the first gate is written behind the journal's closed gate, and once that is on the
    /// disk the gate is opened. At each moment the frames are those before or those with all of the
    /// group; after `Ok` every crash leaves them.
    pub fn append_group<D: Disk>(&mut self, disk: &mut D, group: &[u8]) -> Result<(), DiskFault>
        requires group { IsGroup group.now }
        requires some { 2 ≤ length group.now }
        requires room { self.old.end + group_len group.now ≤ MAX_JOURNAL }
        requires fits { ForSome (D.tells disk.old).files
            (λ two. IsAtRest two self.old.file self.old.end) }
        ensures ok { OnOk result (self.new ≡ moved_on self.old (group_len group.now)) }
        ensures err { OnErr result (self.new ≡ self.old) }
        ensures appended { OnOk result
            (RelatesTold (AppendsFrames self.old.file self.old.end group.now)
            (D.tells disk.old).files (D.tells disk.new).files) }
        ensures any_moment { (two : Two File) → (D.tells disk.old).files ≡ Some two
            → PassedMoments two (D.tells disk.old) (D.tells disk.new) self.old.file
            (BeforeOrWithAll (file_of two self.old.file).now self.old.end group.now) }
        ensures leaves { RelatesTold (LeavesClosed self.old.file) (D.tells disk.old).files
            (D.tells disk.new).files }
        ensures run { DiskRun (D.tells disk.old) (D.tells disk.new) }
        ensures fault { HasCause (D.tells disk.old).disk_faults (D.tells disk.new).disk_faults
            result }
        ensures calls { MakesCalls 4 result (D.tells disk.old) (D.tells disk.new) }
        ensures does { DoesCalls (append_calls self.old.file self.old.end (drop 1 group.now))
            result (D.tells disk.old) (D.tells disk.new) }
    {
        let framed = &group[1..];
        open_behind(disk, self.file, self.end, framed)?;
        self.end += framed.len() as u64;
        self.len = self.len.max(self.end);
        Ok(())
    }

    /// Adds the frames that wait in a group, which is empty afterwards: as `append_group` does, or
    /// with no call of the disk where none waits. After a failure the journal and the group are as
    /// before.
    pub fn flush<D: Disk>(&mut self, disk: &mut D, group: &mut Group) -> Result<(), DiskFault>
        requires group { IsGroup group.old }
        requires room { self.old.end + group_len group.old ≤ MAX_JOURNAL }
        requires fits { ForSome (D.tells disk.old).files
            (λ two. IsAtRest two self.old.file self.old.end) }
        ensures ok { OnOk result (self.new ≡ flushed self.old group.old) }
        ensures empty { OnOk result (group.new ≡ 0 ∷ []) }
        ensures err { OnErr result ((self.new ≡ self.old) × (group.new ≡ group.old)) }
        ensures appended { OnOk result
            (RelatesTold (AppendsFrames self.old.file self.old.end group.old)
            (D.tells disk.old).files (D.tells disk.new).files) }
        ensures any_moment { (two : Two File) → (D.tells disk.old).files ≡ Some two
            → PassedMoments two (D.tells disk.old) (D.tells disk.new) self.old.file
            (BeforeOrWithAll (file_of two self.old.file).now self.old.end group.old) }
        ensures leaves { RelatesTold (LeavesClosed self.old.file) (D.tells disk.old).files
            (D.tells disk.new).files }
        ensures run { DiskRun (D.tells disk.old) (D.tells disk.new) }
        ensures fault { HasCause (D.tells disk.old).disk_faults (D.tells disk.new).disk_faults
            result }
        ensures calls { MakesCalls (flush_calls group.old) result (D.tells disk.old)
            (D.tells disk.new) }
        ensures does { DoesCalls (group_calls self.old.file self.old.end group.old)
            result (D.tells disk.old) (D.tells disk.new) }
    {
        if group.is_empty() {
            return Ok(());
        }
        self.append_group(disk, group.as_slice())?;
        group.clear();
        Ok(())
    }

    /// The number of its file, 0 or 1.
    pub fn file(&self) -> u8
        ensures value { result ≡ self.now.file }
        ensures within { result < 2 }
    {
        self.file
    }

    /// The place of the closed gate plus one, at most the length of the longest journal.
    pub fn end(&self) -> u64
        ensures value { result ≡ self.now.end }
        ensures within { result ≤ MAX_JOURNAL }
    {
        self.end
    }

    /// The format of its file, `FIRST_FORMAT` or `SECOND_FORMAT`.
    pub fn format(&self) -> u8
        ensures value { result ≡ self.now.format }
        ensures known { is_format result ≡ true }
    {
        self.format
    }

    /// Its generation: of two journals the one with the greater generation counts.
    pub fn generation(&self) -> u64
        ensures { result ≡ self.now.generation }
    {
        self.generation
    }
}
