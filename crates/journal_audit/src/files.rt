//! What an audit reads of the two files.
ghost use Rattle.std.specs.Prelude.{◌≡◌, ◌<◌, ◌≤◌, List, ℕ, IfErr, IfOk, IfSome, IsErrOf, OnOk, Some};
ghost use Rattle.std.specs.Prelude.{take, ◌⊎◌};
ghost use Rattle.std.specs.Option.{ForSome, option_map};
ghost use Rattle.outside.specs.Disk.{RelatesTold};
ghost use Rattle.outside.specs.Faults.{HasCause, CountRose};
ghost use Rattle.outside.specs.Files.{ReadsSame, SyncsBoth, Two, file_of, read_files};
ghost use Rattle.outside.specs.Frames.{format_in, is_open, journal_file};
ghost use Rattle.outside.specs.Outside.{AnyImage, DiskRun, OnlyReads};
ghost use Rattle.journal_audit.specs.declared.fault.AuditFault.TheVariants as fault;
ghost use Rattle.sync_rules.specs.Clients.{Meaning};
ghost use Rattle.journal_audit.specs.Answers.{IsFileTaken};
ghost use Rattle.journal_audit.specs.Files.{IsFileFound, IsHeaderOf};

use crate::AuditFault;
use entry_codec::{Format, format_of};
use outside::{Disk, Failed, Place};
use std::alloc::Global;

/// Syncs both files, file 0 first: after it a crash leaves what a read gives. Whatever it answers,
/// the files read as before.
pub(crate) fn sync_both<D: Disk>(disk: &mut D) -> Result<(), Failed>
    ensures settled { OnOk result (RelatesTold SyncsBoth (D.tells disk.old).files
        (D.tells disk.new).files) }
    ensures reads { RelatesTold ReadsSame (D.tells disk.old).files (D.tells disk.new).files }
    ensures any_moment { AnyImage (D.tells disk.old) (D.tells disk.new) }
    ensures run { DiskRun (D.tells disk.old) (D.tells disk.new) }
    ensures fault { HasCause (D.tells disk.old).disk_faults (D.tells disk.new).disk_faults result }
{
    disk.sync(0)?;
    disk.sync(1)?;
    Ok(())
}

/// What an open header says.
#[derive(Clone, Copy)]
pub(crate) struct Header {
    /// The format of the frames.
    pub(crate) format: u8,
    /// Of two open headers the one with the greater generation counts.
    pub(crate) generation: u64,
}

// Whether all were read, and the gate and the mark are there.
fn is_open(bytes: &[u8; 14], n: usize) -> bool
    requires { n ≤ 14 }
    ensures { result ≡ is_open (take n bytes.now) }
{
    n >= 14
        && bytes[0] == 1
        && bytes[1] == b'B'
        && bytes[2] == b'S'
        && bytes[3] == b'P'
        && bytes[4] == b'J'
}

// The header in 14 bytes, of which so many were read.
fn header_of(bytes: [u8; 14], n: usize) -> Option<Header>
    requires { n ≤ 14 }
    ensures { IsHeaderOf (take n bytes) result }
{
    if !is_open(&bytes, n) {
        return None;
    }
    let [_, _, _, _, _, format, a, b, c, d, e, f, g, h] = bytes;
    let generation = u64::from_be_bytes([a, b, c, d, e, f, g, h]);
    Some(Header { format, generation })
}

/// Reads the header of a file: `None` exactly where it is not open.
pub(crate) fn read_header<D: Disk>(disk: &mut D, file: u8) -> Result<Option<Header>, Failed>
    requires { file < 2 }
    ensures header { IfOk result
        (λ h. ForSome (D.tells disk.old).files (λ two. IsHeaderOf (file_of two file).now h)) }
    ensures looks { OnlyReads (D.tells disk.old) (D.tells disk.new) }
    ensures fault { HasCause (D.tells disk.old).disk_faults (D.tells disk.new).disk_faults result }
{
    let mut bytes = [0u8; 14];
    let n = disk.read_at(file, 0, &mut bytes)?;
    Ok(header_of(bytes, n))
}

/// The journal's file by both headers, and its format.
pub(crate) fn journal_of(first: Option<Header>, second: Option<Header>) -> Option<(u8, u8)>
    ensures file { (two : Two (List ℕ)) → IsHeaderOf two.first first → IsHeaderOf two.second second
        → journal_file two ≡ option_map (λ found. found.0) result }
    ensures format { (two : Two (List ℕ)) → IsHeaderOf two.first first
        → IsHeaderOf two.second second
        → IfSome result (λ found. found.1 ≡ format_in (file_of two found.0)) }
    ensures two_files { IfSome result (λ found. found.0 < 2) }
{
    match (first, second) {
        (Some(a), Some(b)) if a.generation < b.generation => Some((1, b.format)),
        (Some(a), _) => Some((0, a.format)),
        (None, Some(b)) => Some((1, b.format)),
        (None, None) => None,
    }
}

/// Reads a file whole.
pub(crate) fn read_file<D: Disk>(
    alloc: Global,
    disk: &mut D,
    file: u8,
) -> Result<Vec<u8>, AuditFault>
    requires { file < 2 }
    ensures bytes { IfOk result
        (λ bytes. ForSome (D.tells disk.old).files (λ two. bytes.items ≡ (file_of two file).now)) }
    ensures looks { OnlyReads (D.tells disk.old) (D.tells disk.new) }
    ensures fault { IsErrOf result AuditFault.DiskFault
        → CountRose (D.tells disk.old).disk_faults (D.tells disk.new).disk_faults }
    ensures undamaged { IfErr result (λ e. e ≡ AuditFault.DiskFault ⊎ e ≡ AuditFault.Memory) }
{
    let len = disk.len(file)? as usize;
    let mut bytes = Vec::new(alloc);
    bytes.resize(len, 0)?;
    let n = disk.read_at(file, 0, bytes.as_mut_slice())?;
    bytes.truncate(n);
    Ok(bytes)
}

// The journal's file, and its format.
fn find<D: Disk>(disk: &mut D) -> Result<(u8, u8), AuditFault>
    ensures found { ForSome (D.tells disk.old).files (λ two. IsFileFound (read_files two) result) }
    ensures two_files { IfOk result (λ found. found.0 < 2) }
    ensures looks { OnlyReads (D.tells disk.old) (D.tells disk.new) }
    ensures fault { IsErrOf result AuditFault.DiskFault
        → CountRose (D.tells disk.old).disk_faults (D.tells disk.new).disk_faults }
{
    let first = read_header(disk, 0)?;
    let second = read_header(disk, 1)?;
    match journal_of(first, second) {
        Some(found) => Ok(found),
        None => Err(AuditFault::NoStore),
    }
}

/// The journal's file.
#[derive(Drop)]
pub(crate) struct Taken {
    /// 0 or 1.
    pub(crate) file: u8,
    /// How its entries are spelled.
    pub(crate) format: Format,
    /// All its bytes.
    pub(crate) bytes: Vec<u8>,
}

/// Reads the journal's file: the one with an open header, of two the one with the greater
/// generation, of two equal ones file 0.
pub(crate) fn take_file<D: Disk>(alloc: Global, disk: &mut D) -> Result<Taken, AuditFault>
    ensures taken { ForSome (D.tells disk.old).files (λ two. (clients : Meaning) → IsFileTaken clients
        (read_files two) result) }
    ensures looks { OnlyReads (D.tells disk.old) (D.tells disk.new) }
    ensures fault { IsErrOf result AuditFault.DiskFault
        → CountRose (D.tells disk.old).disk_faults (D.tells disk.new).disk_faults }
{
    let (file, number) = find(disk)?;
    let Some(format) = format_of(number) else {
        return Err(AuditFault::Damaged(Place { file, at: 5 }));
    };
    let bytes = read_file(alloc, disk, file)?;
    Ok(Taken {
        file,
        format,
        bytes,
    })
}
