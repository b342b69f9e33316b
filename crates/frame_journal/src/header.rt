//! The header of a journal's file.
ghost use Rattle.std.specs.Prelude.{◌≡◌, ◌<◌, ◌≤◌, ℕ, List, Some, take, IfOk, IfSome};
ghost use Rattle.std.specs.Option.{ForSome, option_map};
ghost use Rattle.outside.specs.Faults.{HasCause};
ghost use Rattle.outside.specs.Files.{Two, file_of};
ghost use Rattle.outside.specs.Frames.{is_open, journal_file};
ghost use Rattle.outside.specs.Outside.{OnlyReads, MakesCalls};
ghost use Rattle.frame_journal.specs.Journal.{is_format};

use crate::DiskFault;
use outside::Disk;

/// The first format of a journal's file, as byte 5 of its header names it.
pub const FIRST_FORMAT: u8 = 1;

/// The second format. The frames are the same in both: a format is how the entries in them are
/// spelled.
pub const SECOND_FORMAT: u8 = 2;

/// Whether a journal's file may have this format.
pub fn is_format(format: u8) -> bool
    ensures { result ≡ is_format format }
{
    format == FIRST_FORMAT || format == SECOND_FORMAT
}

/// What an open header says.
#[derive(Clone, Copy, Debug, PartialEq, Eq)]
pub struct Header {
    /// The format of the frames.
    pub format: u8,
    /// Of two open headers the one with the greater generation counts.
    pub generation: u64,
}

impl Header {
    ghost use Rattle.frame_journal.specs.Header.{IsHeaderOf};

    // The header in 14 bytes, of which so many were read.
    fn of(bytes: [u8; 14], n: usize) -> Option<Header>
        requires { n ≤ 14 }
        ensures { IsHeaderOf (take n bytes) result }
    {
        if !is_open(&bytes, n) {
            return None;
        }
        let [_, _, _, _, _, format, a, b, c, d, e, f, g, h] = bytes;
        let generation = u64::from_be_bytes([a, b, c, d, e, f, g, h]);
        Some(Header { format, generation })
    }
}

// Whether all were read, and the gate and the mark are there.
fn is_open(bytes: &[u8; 14], n: usize) -> bool
    requires { n ≤ 14 }
    ensures { result ≡ is_open (take n bytes.now) }
{
    n >= 14
        && bytes[0] == 1
        && bytes[1] == b'B'
        && bytes[2] == b'S'
        && bytes[3] == b'P'
        && bytes[4] == b'J'
}

ghost use Rattle.frame_journal.specs.Header.{IsHeaderOf};

/// Reads the header of a file, in one call of the disk: `None` exactly where it is not open.
pub fn read_header<D: Disk>(disk: &mut D, file: u8) -> Result<Option<Header>, DiskFault>
    requires { file < 2 }
    ensures header { IfOk result
        (λ h. ForSome (D.tells disk.old).files (λ two. IsHeaderOf (file_of two file).now h)) }
    ensures looks { OnlyReads (D.tells disk.old) (D.tells disk.new) }
    ensures fault { HasCause (D.tells disk.old).disk_faults (D.tells disk.new).disk_faults result }
    ensures calls { MakesCalls 1 result (D.tells disk.old) (D.tells disk.new) }
{
    let mut bytes = [0u8; 14];
    let n = disk.read_at(file, 0, &mut bytes)?;
    Ok(Header::of(bytes, n))
}

// The journal's file by both headers, and its header.
pub fn journal_of(first: Option<Header>, second: Option<Header>) -> Option<(u8, Header)>
    ensures file { (two : Two (List ℕ)) → IsHeaderOf two.first first → IsHeaderOf two.second second
        → journal_file two ≡ option_map (λ found. found.0) result }
    ensures header { (two : Two (List ℕ)) → IsHeaderOf two.first first
        → IsHeaderOf two.second second
        → IfSome result (λ found. IsHeaderOf (file_of two found.0) (Some found.1)) }
    ensures two_files { IfSome result (λ found. found.0 < 2) }
{
    match (first, second) {
        (Some(a), Some(b)) if a.generation < b.generation => Some((1, b)),
        (Some(a), _) => Some((0, a)),
        (None, Some(b)) => Some((1, b)),
        (None, None) => None,
    }
}
