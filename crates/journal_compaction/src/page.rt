//! The payload that is being filled.
ghost use Rattle.std.specs.Prelude.{◌≡◌, ◌+◌, ◌-◌, ◌≤◌, [], ◌∷◌, cond, length, IfOk, IsErrOf, OnErr, OnOk};
ghost use Rattle.std.specs.Option.{ForSome};
ghost use Rattle.outside.specs.Disk.{RelatesTold};
ghost use Rattle.outside.specs.Faults.{CountRose};
ghost use Rattle.outside.specs.Outside.{DiskRun};
ghost use Rattle.frame_journal.specs.Append.{framed_of};
ghost use Rattle.frame_journal.specs.Create.{LeavesClosed};
ghost use Rattle.frame_journal.specs.Gathering.{GathersFrames};
ghost use Rattle.frame_journal.specs.Group.{IsGroup, group_len};
ghost use Rattle.journal_compaction.specs.Paging.{closed_page, frames_len};
ghost use Rattle.journal_compaction.specs.Writing.{IsWriterShut};
ghost use Rattle.journal_migration.specs.Starting.{StaysShut};

use frame_journal::{Group, Journal};
use journal_migration::MigrationFault;
use outside::{Disk, MAX_FRAME, MAX_JOURNAL};
use std::alloc::{AllocError, Global};

/// The greatest length of a payload of a brief account: `MAX_ROWS` wanted ids, each in 34 bytes.
const MOST_PAYLOAD: usize = 34_000;

/// A payload that is being filled, a buffer in which it is framed, and the frames that wait.
#[derive(Drop)]
pub(crate) struct Page {
    pub(crate) payload: Vec<u8>,
    framed: Vec<u8>,
    pub(crate) group: Group,
}

impl Page {
    /// An empty payload, with the memory that the longest takes, and none that waits.
    pub(crate) fn new(alloc: Global) -> Result<Page, AllocError>
        ensures empty { IfOk result (λ p. p.payload.items ≡ []) }
        ensures none { IfOk result (λ p. p.group ≡ 0 ∷ []) }
    {
        let payload = Vec::with_capacity(alloc, MOST_PAYLOAD)?;
        let framed = Vec::with_capacity(alloc, MOST_PAYLOAD + 5)?;
        let group = Group::new(alloc)?;
        Ok(Page {
            payload,
            framed,
            group,
        })
    }

    /// The payload behind its length, and a closed gate.
    fn frame(&mut self) -> Result<(), AllocError>
        requires { length self.old.payload.items ≤ MAX_FRAME }
        ensures framed { OnOk result
            (self.new.framed.items ≡ framed_of self.old.payload.items) }
        ensures same { self.new.payload ≡ self.old.payload }
        ensures waits { self.new.group ≡ self.old.group }
    {
        let len = self.payload.len() as u32;
        self.framed.truncate(0);
        self.framed.extend_from_slice(&len.to_be_bytes())?;
        self.framed.extend_from_slice(self.payload.as_slice())?;
        self.framed.push(0)?;
        Ok(())
    }

    /// Puts the payload in a frame behind those that wait and empties it, unless it stays or has no
    /// bytes.
    pub(crate) fn flush<D: Disk>(
        &mut self,
        disk: &mut D,
        writer: &mut Journal,
        stays: bool,
    ) -> Result<(), MigrationFault>
        requires few { length self.old.payload.items ≤ MAX_FRAME }
        requires waits { IsGroup self.old.group }
        requires room { writer.old.end + group_len self.old.group + frames_len (cond stays []
            (closed_page self.old.payload.items)) ≤ MAX_JOURNAL }
        requires works { ForSome (D.tells disk.old).files (IsWriterShut writer.old) }
        ensures left { OnOk result
            (self.new.payload.items ≡ cond stays self.old.payload.items []) }
        ensures adding { OnOk result (GathersFrames writer.old writer.new self.old.group
            self.new.group (cond stays [] (closed_page self.old.payload.items))
            (D.tells disk.old).files (D.tells disk.new).files) }
        ensures waits { OnOk result (IsGroup self.new.group) }
        ensures works { OnOk result (ForSome (D.tells disk.new).files (IsWriterShut writer.new)) }
        ensures shut { StaysShut writer.old.file (D.tells disk.old) (D.tells disk.new) }
        ensures leaves { RelatesTold (LeavesClosed writer.old.file) (D.tells disk.old).files
            (D.tells disk.new).files }
        ensures run { DiskRun (D.tells disk.old) (D.tells disk.new) }
        ensures fault { IsErrOf result MigrationFault.DiskFault
            → CountRose (D.tells disk.old).disk_faults (D.tells disk.new).disk_faults }
    {
        if stays || self.payload.as_slice().is_empty() {
            return Ok(());
        }
        self.frame()?;
        writer.gather(disk, &mut self.group, self.framed.as_slice())?;
        self.payload.truncate(0);
        Ok(())
    }
}
