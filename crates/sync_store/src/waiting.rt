//! The frames that wait in a store, to be added to its journal together.
ghost use Rattle.std.specs.Prelude.{◌≡◌, ◌+◌, ◌≤◌, ◌++◌, [], ◌∷◌, true, length, List, ℕ, Some};
ghost use Rattle.std.specs.Prelude.{IfOk, OnErr, OnOk};
ghost use Rattle.std.specs.Option.{ForSome};
ghost use Rattle.outside.specs.declared.limits.TheConstants.{MAX_FRAME, MAX_JOURNAL};
ghost use Rattle.outside.specs.Disk.{RelatesTold};
ghost use Rattle.outside.specs.Faults.{HasCause};
ghost use Rattle.outside.specs.Files.{Two, File, file_of};
ghost use Rattle.outside.specs.Frames.{IsAtRest};
ghost use Rattle.outside.specs.Made.{DoesCalls};
ghost use Rattle.outside.specs.Outside.{DiskRun, MakesCalls};
ghost use Rattle.outside.specs.Steps.{PassedMoments};
ghost use Rattle.frame_journal.specs.declared.group.TheConstants.{MAX_GROUP};
ghost use Rattle.frame_journal.specs.Append.{IsFramed, payload_of};
ghost use Rattle.frame_journal.specs.Appends.{group_calls};
ghost use Rattle.frame_journal.specs.Group.{AppendsFrames, BeforeOrWithAll, IsGroup, IsJoined};
ghost use Rattle.frame_journal.specs.Group.{flush_calls, flushed, group_len};
ghost use Rattle.sync_store.specs.Waiting.{frames_in, has_place};

use frame_journal::{DiskFault, Group, Journal};
use outside::{Disk, MAX_FRAME};
use std::alloc::{AllocError, Global};
use std::marker::Model;

/// How many batches wait at most in a store.
pub const MAX_WAITING: u32 = 4_096;

/// Frames that wait, each of a batch, and how many they are. Contracts see the frames, each with its
/// gate open, and a closed gate behind them.
#[derive(Drop)]
pub(crate) struct Waiting {
    group: Group,
    batches: u32,
}

impl Model for Waiting {
    ghost use Rattle.std.specs.Prelude.{◌≡◌, List, ℕ};
    ghost use Rattle.sync_store.specs.Waiting.{frames_in};

    ghost Value = { List ℕ };

    ghost view = { λ w. w.group };

    ghost invariant = { λ w. w.batches ≡ frames_in w.group };
}

impl Waiting {
    // None, with the memory that the longest group takes.
    pub(crate) fn new(alloc: Global) -> Result<Waiting, AllocError>
        ensures { IfOk result (λ w. w ≡ 0 ∷ []) }
    {
        let group = Group::new(alloc)?;
        Ok(Waiting { group, batches: 0 })
    }

    // Whether one batch more may wait, whatever its length.
    pub(crate) fn has_place(&self) -> bool
        ensures { result ≡ has_place (group_len self.now) (frames_in self.now) }
    {
        self.batches < MAX_WAITING && self.group.has_room(MAX_FRAME as usize + 5)
    }

    // Adds a batch's frame behind those that wait, which takes no memory.
    pub(crate) fn add(&mut self, framed: &[u8])
        requires framed { IsFramed framed.now }
        requires waits { IsGroup self.old }
        requires place { has_place (group_len self.old) (frames_in self.old) ≡ true }
        ensures added { (waiting : List (List ℕ)) → IsJoined waiting self.old
            → IsJoined (waiting ++ payload_of framed.now ∷ []) self.new }
        ensures long { length self.new ≡ length self.old + length framed.now }
    {
        self.group.add(framed);
        self.batches += 1;
    }

    // The frames, and the closed gate.
    pub(crate) fn as_slice(&self) -> &[u8]
        ensures value { result.now ≡ self.now }
        ensures within { 1 ≤ length result.now }
    {
        self.group.as_slice()
    }

    // Adds them to a journal, as `Journal::flush` does.
    pub(crate) fn flush<D: Disk>(
        &mut self,
        disk: &mut D,
        journal: &mut Journal,
    ) -> Result<(), DiskFault>
        requires group { IsGroup self.old }
        requires room { journal.old.end + group_len self.old ≤ MAX_JOURNAL }
        requires fits { ForSome (D.tells disk.old).files
            (λ two. IsAtRest two journal.old.file journal.old.end) }
        ensures ok { OnOk result (journal.new ≡ flushed journal.old self.old) }
        ensures empty { OnOk result (self.new ≡ 0 ∷ []) }
        ensures err { OnErr result ((journal.new ≡ journal.old) × (self.new ≡ self.old)) }
        ensures appended { OnOk result
            (RelatesTold (AppendsFrames journal.old.file journal.old.end self.old)
            (D.tells disk.old).files (D.tells disk.new).files) }
        ensures any_moment { (two : Two File) → (D.tells disk.old).files ≡ Some two
            → PassedMoments two (D.tells disk.old) (D.tells disk.new) journal.old.file
            (BeforeOrWithAll (file_of two journal.old.file).now journal.old.end self.old) }
        ensures run { DiskRun (D.tells disk.old) (D.tells disk.new) }
        ensures fault { HasCause (D.tells disk.old).disk_faults (D.tells disk.new).disk_faults
            result }
        ensures calls { MakesCalls (flush_calls self.old) result (D.tells disk.old)
            (D.tells disk.new) }
        ensures does { DoesCalls (group_calls journal.old.file journal.old.end self.old)
            result (D.tells disk.old) (D.tells disk.new) }
    {
        journal.flush(disk, &mut self.group)?;
        self.batches = 0;
        Ok(())
    }
}
