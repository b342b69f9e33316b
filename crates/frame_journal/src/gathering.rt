//! Frames that come one by one, and are added to a journal in groups.
ghost use Rattle.std.specs.Prelude.{◌≡◌, ◌+◌, ◌-◌, ◌≤◌, [], ◌∷◌, length, nat_le, Some, OnErr, OnOk};
ghost use Rattle.std.specs.Option.{ForSome};
ghost use Rattle.outside.specs.declared.limits.TheConstants.{MAX_JOURNAL};
ghost use Rattle.outside.specs.Disk.{RelatesTold};
ghost use Rattle.outside.specs.Faults.{HasCause};
ghost use Rattle.outside.specs.Files.{Two, File, file_of};
ghost use Rattle.outside.specs.Frames.{IsAtRest};
ghost use Rattle.outside.specs.Made.{DoesCalls};
ghost use Rattle.outside.specs.Outside.{DiskRun, MakesCalls};
ghost use Rattle.outside.specs.Steps.{PassedMoments};
ghost use Rattle.frame_journal.specs.Append.{IsFramed, payload_of};
ghost use Rattle.frame_journal.specs.Create.{LeavesClosed};
ghost use Rattle.frame_journal.specs.Gathering.{GathersFrames, making_room, room_calls};
ghost use Rattle.frame_journal.specs.Group.{BeforeOrWithAll, IsGroup, group_len};

use crate::{DiskFault, Group, Journal, MAX_GROUP};
use outside::Disk;

impl Journal {
    // Flushes a group that has no room for a frame of so many bytes.
    fn make_room<D: Disk>(
        &mut self,
        disk: &mut D,
        group: &mut Group,
        len: usize,
    ) -> Result<(), DiskFault>
        requires waits { IsGroup group.old }
        requires len { len ≤ MAX_GROUP }
        requires room { self.old.end + group_len group.old ≤ MAX_JOURNAL }
        requires fits { ForSome (D.tells disk.old).files
            (λ two. IsAtRest two self.old.file self.old.end) }
        ensures gathers { OnOk result (GathersFrames self.old self.new group.old group.new []
            (D.tells disk.old).files (D.tells disk.new).files) }
        ensures fits { OnOk result (ForSome (D.tells disk.new).files
            (λ two. IsAtRest two self.new.file self.new.end)) }
        ensures long { OnOk result
            (self.new.end + group_len group.new ≡ self.old.end + group_len group.old) }
        ensures room { OnOk result (length group.new + len ≤ MAX_GROUP + 1) }
        ensures err { OnErr result ((self.new ≡ self.old) × (group.new ≡ group.old)) }
        ensures any_moment { (two : Two File) → (D.tells disk.old).files ≡ Some two
            → PassedMoments two (D.tells disk.old) (D.tells disk.new) self.old.file
            (BeforeOrWithAll (file_of two self.old.file).now self.old.end group.old) }
        ensures leaves { RelatesTold (LeavesClosed self.old.file) (D.tells disk.old).files
            (D.tells disk.new).files }
        ensures run { DiskRun (D.tells disk.old) (D.tells disk.new) }
        ensures fault { HasCause (D.tells disk.old).disk_faults (D.tells disk.new).disk_faults
            result }
        ensures calls { MakesCalls (room_calls group.old len) result (D.tells disk.old)
            (D.tells disk.new) }
        ensures does { DoesCalls (making_room self.old.file self.old.end group.old len)
            result (D.tells disk.old) (D.tells disk.new) }
    {
        if group.has_room(len) {
            return Ok(());
        }
        self.flush(disk, group)
    }

    /// Puts a frame behind those that wait in a group; `framed` is as `append` takes it. Where the
    /// group has no room for it, those that wait are flushed first, which is all that is asked of
    /// the disk. After a failure the journal and the group are as before. It takes no memory.
    pub fn gather<D: Disk>(
        &mut self,
        disk: &mut D,
        group: &mut Group,
        framed: &[u8],
    ) -> Result<(), DiskFault>
        requires framed { IsFramed framed.now }
        requires waits { IsGroup group.old }
        requires room { self.old.end + group_len group.old ≤ MAX_JOURNAL }
        requires fits { ForSome (D.tells disk.old).files
            (λ two. IsAtRest two self.old.file self.old.end) }
        ensures gathers { OnOk result (GathersFrames self.old self.new group.old group.new
            (payload_of framed.now ∷ []) (D.tells disk.old).files (D.tells disk.new).files) }
        ensures fits { OnOk result (ForSome (D.tells disk.new).files
            (λ two. IsAtRest two self.new.file self.new.end)) }
        ensures long { OnOk result (self.new.end + group_len group.new
            ≡ self.old.end + group_len group.old + length framed.now) }
        ensures err { OnErr result ((self.new ≡ self.old) × (group.new ≡ group.old)) }
        ensures any_moment { (two : Two File) → (D.tells disk.old).files ≡ Some two
            → PassedMoments two (D.tells disk.old) (D.tells disk.new) self.old.file
            (BeforeOrWithAll (file_of two self.old.file).now self.old.end group.old) }
        ensures leaves { RelatesTold (LeavesClosed self.old.file) (D.tells disk.old).files
            (D.tells disk.new).files }
        ensures run { DiskRun (D.tells disk.old) (D.tells disk.new) }
        ensures fault { HasCause (D.tells disk.old).disk_faults (D.tells disk.new).disk_faults
            result }
        ensures calls { MakesCalls (room_calls group.old (length framed.now)) result
            (D.tells disk.old) (D.tells disk.new) }
        ensures does { DoesCalls (making_room self.old.file self.old.end group.old (length framed.now))
            result (D.tells disk.old) (D.tells disk.new) }
    {
        self.make_room(disk, group, framed.len())?;
        group.add(framed);
        Ok(())
    }
}
