//! The frame at a place of a file.
ghost use Rattle.std.specs.Prelude.{◌≡◌, ◌+◌, ◌-◌, ◌<◌, ◌≤◌, ◌⊎◌, ℕ, List, min, true, take, drop};
ghost use Rattle.std.specs.Prelude.{length, vec_len, IfOk, IfErr, IsErrOf};
ghost use Rattle.frame_journal.specs.declared.fault.FrameFault.TheVariants as fault;
ghost use Rattle.std.specs.Option.{ForSome};
ghost use Rattle.outside.specs.Faults.{HasCause, CountRose};
ghost use Rattle.outside.specs.Files.{file_of};
ghost use Rattle.outside.specs.Outside.{OnlyReads, MakesCalls};
ghost use Rattle.outside.specs.Disk.{ReadsBytes};
ghost use Rattle.frame_journal.specs.Next.{IsGate, HasSize, IsNextAt, IsSizeOf, ReadsGate};
ghost use Rattle.frame_journal.specs.Next.{ReadsFrame};

use crate::FrameFault;
use outside::{Disk, Failed, MAX_FRAME, MAX_JOURNAL, Place};

/// What stands at the place of a gate.
#[derive(Clone, Copy, Debug, PartialEq, Eq)]
pub enum Gate {
    /// A byte that is not 1.
    Closed,
    /// No byte, or an open gate with no whole frame.
    Broken,
    /// An open gate, and the length of its frame's payload.
    Open(u32),
}

/// Reads the gate at a place of a file of which this length is known, and the length of its
/// payload.
pub fn read_gate<D: Disk>(disk: &mut D, file: u8, place: u64, len: u64) -> Result<Gate, Failed>
    requires file { file < 2 }
    requires place { place < MAX_JOURNAL }
    ensures gate { IfOk result (λ gate. ForSome (D.tells disk.old).files
        (λ two. length (file_of two file).now ≡ len → IsGate (file_of two file).now place gate)) }
    ensures size { IfOk result (HasSize place) }
    ensures looks { OnlyReads (D.tells disk.old) (D.tells disk.new) }
    ensures fault { HasCause (D.tells disk.old).disk_faults (D.tells disk.new).disk_faults result }
    ensures calls { ReadsGate result (D.tells disk.old) (D.tells disk.new) }
{
    if place >= len {
        return Ok(Gate::Broken);
    }
    let mut head = [0u8; 5];
    let room = (len - place).min(5) as usize;
    let n = disk.read_at(file, place, &mut head[..room])?;
    Ok(gate_in(&head, n, place, len))
}

// The gate and the length in five bytes, of which so many were read.
fn gate_in(head: &[u8; 5], n: usize, place: u64, len: u64) -> Gate
    requires place { place < MAX_JOURNAL }
    ensures gate { (bytes : List ℕ) → length bytes ≡ len → place < len → n ≡ min 5 (len - place)
        → take n head.now ≡ take n (drop place bytes) → IsGate bytes place result }
    ensures size { HasSize place result }
{
    if n == 0 {
        return Gate::Broken;
    }
    if head[0] != 1 {
        return Gate::Closed;
    }
    if n < 5 {
        return Gate::Broken;
    }
    let [_, a, b, c, d] = *head;
    let size = u32::from_be_bytes([a, b, c, d]);
    let end = place + 5 + u64::from(size);
    if size == 0 || size > MAX_FRAME || end > len || end + 1 > MAX_JOURNAL {
        return Gate::Broken;
    }
    Gate::Open(size)
}

/// Reads so many bytes from a place on into `to`, which afterwards holds them alone. Says whether
/// all were there.
pub fn read_payload<D: Disk>(
    disk: &mut D,
    file: u8,
    at: u64,
    size: u32,
    to: &mut Vec<u8>,
) -> Result<bool, FrameFault>
    requires { file < 2 }
    ensures bytes { IfOk result (λ all. ForSome (D.tells disk.old).files
        (λ two. at + size ≤ length (file_of two file).now → (all ≡ true)
        × (to.new.items ≡ take size (drop at (file_of two file).now)))) }
    ensures len { IfOk result (λ all. vec_len to.new ≡ size) }
    ensures looks { OnlyReads (D.tells disk.old) (D.tells disk.new) }
    ensures later { (D.tells disk.old).disk_faults ≤ (D.tells disk.new).disk_faults }
    ensures fault { IsErrOf result FrameFault.DiskFault
        → CountRose (D.tells disk.old).disk_faults (D.tells disk.new).disk_faults }
    ensures calls { MakesCalls 1 result (D.tells disk.old) (D.tells disk.new) }
    ensures undamaged { IfErr result (λ e. e ≡ FrameFault.DiskFault ⊎ e ≡ FrameFault.Memory) }
{
    to.truncate(0);
    to.resize(size as usize, 0)?;
    let n = disk.read_at(file, at, to.as_mut_slice())?;
    Ok(n == size as usize)
}

/// Reads the frame at a place of a file of which this length is known, its payload into `to`;
/// answers the payload's length, or `None` where the gate is closed.
pub fn next_at<D: Disk>(
    disk: &mut D,
    file: u8,
    place: u64,
    len: u64,
    to: &mut Vec<u8>,
) -> Result<Option<u32>, FrameFault>
    requires file { file < 2 }
    requires place { place < MAX_JOURNAL }
    requires fits { ForSome (D.tells disk.old).files (λ two. length (file_of two file).now ≡ len) }
    ensures next { ForSome (D.tells disk.old).files
        (λ two. IsNextAt (file_of two file).now file place to.new.items result) }
    ensures size { IfOk result (IsSizeOf place (vec_len to.new)) }
    ensures looks { OnlyReads (D.tells disk.old) (D.tells disk.new) }
    ensures later { (D.tells disk.old).disk_faults ≤ (D.tells disk.new).disk_faults }
    ensures fault { IsErrOf result FrameFault.DiskFault
        → CountRose (D.tells disk.old).disk_faults (D.tells disk.new).disk_faults }
    ensures calls { ReadsFrame result (D.tells disk.old) (D.tells disk.new) }
{
    match read_gate(disk, file, place, len) {
        Ok(Gate::Closed) => Ok(None),
        Ok(Gate::Broken) => Err(FrameFault::Damaged(Place { file, at: place })),
        Ok(Gate::Open(size)) => match read_payload(disk, file, place + 5, size, to) {
            Ok(true) => Ok(Some(size)),
            Ok(false) => Err(FrameFault::Damaged(Place { file, at: place })),
            Err(fault) => Err(fault),
        },
        Err(_) => Err(FrameFault::DiskFault),
    }
}
