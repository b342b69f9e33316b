//! Two files as a disk keeps them.
ghost use Rattle.std.specs.Prelude.{◌≡◌, ◌<◌, ◌≤◌, [], ◌∷◌, None, Some, length, IfOk};
ghost use Rattle.std.specs.Option.{ForSome};
ghost use Rattle.outside.specs.Faults.{HasCause};
ghost use Rattle.outside.specs.Changes.{wrote, cut, synced};
ghost use Rattle.outside.specs.Files.{file_of};
ghost use Rattle.outside.specs.Made.{DoesCalls};
ghost use Rattle.outside.specs.Outside.{Outside, DiskCall};
ghost use Rattle.outside.specs.Disk.{RelatesTold, ReadsBytes, WritesFile, CutsFile, SyncsFile};

use crate::Failed;

/// A place in one of the two files.
#[derive(Clone, Copy, Debug, PartialEq, Eq)]
pub struct Place {
    /// 0 or 1.
    pub file: u8,
    /// Counted from the file's begin, in bytes.
    pub at: u64,
}

/// A disk with two files, 0 and 1. A file that is not there has length 0. What is said of contents
/// is said where the disk tells them.
pub trait Disk {
    /// What the object tells of the outside, with the laws of it.
    ghost tells: { Self → Outside };

    /// The length of the file.
    fn len(&mut self, file: u8) -> Result<u64, Failed>
        requires { file < 2 }
        ensures call { DiskCall (tells self.old) (tells self.new) }
        ensures cause { HasCause (tells self.old).disk_faults (tells self.new).disk_faults result }
        ensures does { DoesCalls (None ∷ []) result (tells self.old) (tells self.new) }
        ensures same { (tells self.new).files ≡ (tells self.old).files }
        ensures length { IfOk result
            (λ n. ForSome (tells self.old).files (λ two. n ≡ length (file_of two file).now)) };

    /// Reads from place `at` on into the front of `buf` and says how many bytes: as many as there
    /// are, or as `buf` has room for.
    fn read_at(&mut self, file: u8, at: u64, buf: &mut [u8]) -> Result<usize, Failed>
        requires { file < 2 }
        ensures call { DiskCall (tells self.old) (tells self.new) }
        ensures cause { HasCause (tells self.old).disk_faults (tells self.new).disk_faults result }
        ensures does { DoesCalls (None ∷ []) result (tells self.old) (tells self.new) }
        ensures same { (tells self.new).files ≡ (tells self.old).files }
        ensures bound { IfOk result (λ n. n ≤ length buf.new) }
        ensures bytes { IfOk result
            (λ n. ForSome (tells self.old).files
            (λ two. ReadsBytes (file_of two file).now at buf.new n)) };

    /// Writes from place `at` on, over what is there and past the end.
    fn write_at(&mut self, file: u8, at: u64, bytes: &[u8]) -> Result<(), Failed>
        requires file { file < 2 }
        requires place { ForSome (tells self.old).files
            (λ two. at ≤ length (file_of two file).now) }
        ensures call { DiskCall (tells self.old) (tells self.new) }
        ensures cause { HasCause (tells self.old).disk_faults (tells self.new).disk_faults result }
        ensures does { DoesCalls (Some (wrote file at bytes.now) ∷ []) result (tells self.old) (tells self.new) }
        ensures written { RelatesTold (WritesFile file at bytes.now result) (tells self.old).files
            (tells self.new).files };

    /// Cuts the file to a length.
    fn cut(&mut self, file: u8, len: u64) -> Result<(), Failed>
        requires file { file < 2 }
        requires length { ForSome (tells self.old).files
            (λ two. len ≤ length (file_of two file).now) }
        ensures call { DiskCall (tells self.old) (tells self.new) }
        ensures cause { HasCause (tells self.old).disk_faults (tells self.new).disk_faults result }
        ensures does { DoesCalls (Some (cut file len) ∷ []) result (tells self.old) (tells self.new) }
        ensures cut { RelatesTold (CutsFile file len result) (tells self.old).files
            (tells self.new).files };

    /// After it a crash leaves of this file what a read gives.
    fn sync(&mut self, file: u8) -> Result<(), Failed>
        requires { file < 2 }
        ensures call { DiskCall (tells self.old) (tells self.new) }
        ensures cause { HasCause (tells self.old).disk_faults (tells self.new).disk_faults result }
        ensures does { DoesCalls (Some (synced file) ∷ []) result (tells self.old) (tells self.new) }
        ensures synced { RelatesTold (SyncsFile file result) (tells self.old).files
            (tells self.new).files };
}
