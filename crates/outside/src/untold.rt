//! A disk in memory seen as a real one is.
use crate::{Disk, Failed, MemDisk};

/// A disk in memory that tells nothing but its count of failures, as a real one. A write past the
/// end of a file fails.
#[derive(Drop)]
pub struct Untold {
    /// The disk, with all that is known of it.
    pub disk: MemDisk,
    /// How many calls failed; it stands still at 2^64 - 1.
    pub faults: u64,
}

impl Untold {
    ghost use Rattle.std.specs.Prelude.{◌≡◌};
    ghost use Rattle.outside.specs.Faults.{HasCause};

    /// The same disk, of which no call failed yet.
    pub fn new(disk: MemDisk) -> Untold
        ensures same { result.disk ≡ disk }
        ensures unfailed { result.faults ≡ 0 }
    {
        Untold { disk, faults: 0 }
    }

    // Counts a failure.
    fn counted<T>(&mut self, answer: Result<T, Failed>) -> Result<T, Failed>
        ensures { HasCause self.old.faults self.new.faults result }
    {
        match answer {
            Ok(value) => Ok(value),
            Err(fault) => {
                self.faults = self.faults.saturating_add(1);
                Err(fault)
            }
        }
    }
}

impl Disk for Untold {
    ghost use Rattle.std.specs.Prelude.{[]};
    ghost use Rattle.outside.specs.Silent.{silent};

    ghost tells = { λ d. silent d.faults 0 [] };

    fn len(&mut self, file: u8) -> Result<u64, Failed> {
        let answer = self.disk.len(file);
        self.counted(answer)
    }

    fn read_at(&mut self, file: u8, at: u64, buf: &mut [u8]) -> Result<usize, Failed> {
        match self.disk.read_at(file, at, buf) {
            Ok(n) => Ok(n),
            Err(fault) => {
                self.faults = self.faults.saturating_add(1);
                Err(fault)
            }
        }
    }

    fn write_at(&mut self, file: u8, at: u64, bytes: &[u8]) -> Result<(), Failed> {
        let answer = if at <= self.disk.file(file).len() as u64 {
            self.disk.write_at(file, at, bytes)
        } else {
            Err(Failed)
        };
        self.counted(answer)
    }

    fn cut(&mut self, file: u8, len: u64) -> Result<(), Failed> {
        let answer = if len <= self.disk.file(file).len() as u64 {
            self.disk.cut(file, len)
        } else {
            Err(Failed)
        };
        self.counted(answer)
    }

    fn sync(&mut self, file: u8) -> Result<(), Failed> {
        let answer = self.disk.sync(file);
        self.counted(answer)
    }
}
