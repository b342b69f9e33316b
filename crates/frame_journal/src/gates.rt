//! Syncs of both files, and the gates of a journal's file.
ghost use Rattle.std.specs.Prelude.{◌≡◌, ◌<◌, ◌≤◌, ◌-◌, [], ◌∷◌, Some, true, false, nat_lt, not, ◌&&◌};
ghost use Rattle.std.specs.Prelude.{◌==◌, length, OnOk};
ghost use Rattle.std.specs.Option.{ForSome};
ghost use Rattle.outside.specs.Faults.{HasCause};
ghost use Rattle.outside.specs.Files.{File, NothingPending, ReadsSame, SyncsBoth, Two, file_of};
ghost use Rattle.outside.specs.Changes.{synced};
ghost use Rattle.outside.specs.Disk.{RelatesTold};
ghost use Rattle.outside.specs.Made.{DoesCalls};
ghost use Rattle.outside.specs.Frames.{is_open};
ghost use Rattle.outside.specs.Outside.{AnyImage, DiskRun, MakesAtMost, MakesCalls, MakesJust};
ghost use Rattle.outside.specs.Steps.{PassedMoments};
ghost use Rattle.frame_journal.specs.Append.{WritesAndOpensGate, Gated};
ghost use Rattle.frame_journal.specs.Appends.{append_calls, write_calls};
ghost use Rattle.frame_journal.specs.Create.{IsCleared, ClearsFile, CreatesJournal, PreparesJournal, behind_gate};
ghost use Rattle.frame_journal.specs.Create.{ShutOrBegun, BeforeOrShut, HasShutGate, ShutsGate};
ghost use Rattle.frame_journal.specs.Create.{CutsToFirstByte, IsPrepared, PublishesHeader, ShutOrOpened};
ghost use Rattle.frame_journal.specs.Create.{IsClearedAgain, IsCutBack, LeavesClosed, StaysClosed};
ghost use Rattle.frame_journal.specs.Gates.{WritesBehind, OpensGate};
ghost use Rattle.frame_journal.specs.Journal.{is_format};
ghost use Rattle.frame_journal.specs.Gates.{KeepsFront, KeepsAllBut};

use crate::DiskFault;
use outside::Disk;

/// Syncs both files, file 0 first, in two calls of the disk: after it a crash leaves what a read
/// gives. Whatever it answers, the files read as before.
pub fn barrier<D: Disk>(disk: &mut D) -> Result<(), DiskFault>
    ensures settled { OnOk result (RelatesTold SyncsBoth (D.tells disk.old).files
        (D.tells disk.new).files) }
    ensures reads { RelatesTold ReadsSame (D.tells disk.old).files (D.tells disk.new).files }

    // At each moment a crash leaves what it might have left before.
    ensures any_moment { AnyImage (D.tells disk.old) (D.tells disk.new) }
    ensures run { DiskRun (D.tells disk.old) (D.tells disk.new) }
    ensures fault { HasCause (D.tells disk.old).disk_faults (D.tells disk.new).disk_faults result }
    ensures calls { MakesCalls 2 result (D.tells disk.old) (D.tells disk.new) }
    ensures does { DoesCalls (Some (synced 0) ∷ Some (synced 1) ∷ []) result (D.tells disk.old)
        (D.tells disk.new) }
{
    disk.sync(0)?;
    disk.sync(1)?;
    Ok(())
}

/// Writes bytes behind a gate, which stands before `end`, and waits until they are on the disk. At
/// each moment what lies before `end` is as it was.
pub fn write_behind<D: Disk>(
    disk: &mut D,
    file: u8,
    end: u64,
    bytes: &[u8],
) -> Result<(), DiskFault>
    requires file { file < 2 }
    requires fits { ForSome (D.tells disk.old).files (λ two. NothingPending two file
        × (end ≤ length (file_of two file).now)) }
    ensures written { OnOk result (RelatesTold (WritesBehind file end bytes.now)
        (D.tells disk.old).files (D.tells disk.new).files) }
    ensures any_moment { (two : Two File) → (D.tells disk.old).files ≡ Some two
        → PassedMoments two (D.tells disk.old) (D.tells disk.new) file
        (KeepsFront (file_of two file).now end) }
    ensures leaves { 1 ≤ end → RelatesTold (LeavesClosed file) (D.tells disk.old).files
        (D.tells disk.new).files }
    ensures run { DiskRun (D.tells disk.old) (D.tells disk.new) }
    ensures fault { HasCause (D.tells disk.old).disk_faults (D.tells disk.new).disk_faults result }
    ensures calls { MakesCalls 2 result (D.tells disk.old) (D.tells disk.new) }
    ensures does { DoesCalls (write_calls file end bytes.now) result (D.tells disk.old)
        (D.tells disk.new) }
{
    disk.write_at(file, end, bytes)?;
    disk.sync(file)?;
    Ok(())
}

/// Opens the gate before `end`, which is a header's where `end` is 1, and waits until it is on the
/// disk. At each moment all bytes but the gate are as they were.
pub fn open_gate<D: Disk>(disk: &mut D, file: u8, end: u64) -> Result<(), DiskFault>
    requires file { file < 2 }
    requires behind { 1 ≤ end }
    requires fits { ForSome (D.tells disk.old).files (λ two. NothingPending two file
        × (end ≤ length (file_of two file).now)) }
    ensures opened { OnOk result (RelatesTold (OpensGate file end) (D.tells disk.old).files
        (D.tells disk.new).files) }
    ensures any_moment { (two : Two File) → (D.tells disk.old).files ≡ Some two
        → PassedMoments two (D.tells disk.old) (D.tells disk.new) file
        (KeepsAllBut (file_of two file).now (end - 1)) }
    ensures leaves { 2 ≤ end → RelatesTold (LeavesClosed file) (D.tells disk.old).files
        (D.tells disk.new).files }
    ensures run { DiskRun (D.tells disk.old) (D.tells disk.new) }
    ensures fault { HasCause (D.tells disk.old).disk_faults (D.tells disk.new).disk_faults result }
    ensures calls { MakesCalls 2 result (D.tells disk.old) (D.tells disk.new) }
    ensures does { DoesCalls (write_calls file (end - 1) (1 ∷ [])) result (D.tells disk.old)
        (D.tells disk.new) }
{
    disk.write_at(file, end - 1, &[1])?;
    disk.sync(file)?;
    Ok(())
}

/// Writes bytes behind a gate, which stands before `end`, and once they are on the disk opens the
/// gate.
pub fn open_behind<D: Disk>(disk: &mut D, file: u8, end: u64, bytes: &[u8]) -> Result<(), DiskFault>
    requires file { file < 2 }
    requires behind { 1 ≤ end }
    requires fits { ForSome (D.tells disk.old).files (λ two. NothingPending two file
        × (end ≤ length (file_of two file).now)) }
    ensures opened { OnOk result (RelatesTold (WritesAndOpensGate file end bytes.now) (D.tells disk.old).files
        (D.tells disk.new).files) }
    ensures any_moment { (two : Two File) → (D.tells disk.old).files ≡ Some two
        → PassedMoments two (D.tells disk.old) (D.tells disk.new) file
        (Gated (file_of two file).now end bytes.now) }
    ensures leaves { 2 ≤ end → RelatesTold (LeavesClosed file) (D.tells disk.old).files
        (D.tells disk.new).files }
    ensures run { DiskRun (D.tells disk.old) (D.tells disk.new) }
    ensures fault { HasCause (D.tells disk.old).disk_faults (D.tells disk.new).disk_faults result }
    ensures calls { MakesCalls 4 result (D.tells disk.old) (D.tells disk.new) }
    ensures does { DoesCalls (append_calls file end bytes.now) result (D.tells disk.old)
        (D.tells disk.new) }
{
    write_behind(disk, file, end, bytes)?;
    open_gate(disk, file, end)
}

/// Begins a journal of this format and generation in a file that was cleared: all that stands
/// behind its gate, and then the gate, in four calls of the disk. At each moment the file has no
/// open header or is that journal; after `Ok` every crash leaves the journal.
pub fn create<D: Disk>(disk: &mut D, file: u8, format: u8, generation: u64) -> Result<(), DiskFault>
    requires file { file < 2 }
    requires format { is_format format ≡ true }
    requires cleared { ForSome (D.tells disk.old).files (λ two. IsCleared two file) }
    ensures created { OnOk result (RelatesTold (CreatesJournal file format generation) (D.tells disk.old).files
        (D.tells disk.new).files) }
    ensures any_moment { (two : Two File) → (D.tells disk.old).files ≡ Some two
        → PassedMoments two (D.tells disk.old) (D.tells disk.new) file (ShutOrBegun format generation) }
    ensures run { DiskRun (D.tells disk.old) (D.tells disk.new) }
    ensures fault { HasCause (D.tells disk.old).disk_faults (D.tells disk.new).disk_faults result }
    ensures calls { MakesCalls 4 result (D.tells disk.old) (D.tells disk.new) }
{
    prepare(disk, file, format, generation)?;
    publish(disk, file)
}

/// Puts all of a journal of this format and generation but the gate of its header into a file that
/// was cleared, in two calls of the disk, so that frames may be added before `publish` makes it a
/// journal. At each moment the file has no open header.
pub fn prepare<D: Disk>(
    disk: &mut D,
    file: u8,
    format: u8,
    generation: u64,
) -> Result<(), DiskFault>
    requires file { file < 2 }
    requires format { is_format format ≡ true }
    requires cleared { ForSome (D.tells disk.old).files (λ two. IsCleared two file) }
    ensures prepared { OnOk result (RelatesTold (PreparesJournal file format generation) (D.tells disk.old).files
        (D.tells disk.new).files) }
    ensures any_moment { (two : Two File) → (D.tells disk.old).files ≡ Some two
        → PassedMoments two (D.tells disk.old) (D.tells disk.new) file (λ left. is_open left ≡ false) }
    ensures leaves { RelatesTold (LeavesClosed file) (D.tells disk.old).files
        (D.tells disk.new).files }
    ensures run { DiskRun (D.tells disk.old) (D.tells disk.new) }
    ensures fault { HasCause (D.tells disk.old).disk_faults (D.tells disk.new).disk_faults result }
    ensures calls { MakesCalls 2 result (D.tells disk.old) (D.tells disk.new) }
{
    let bytes = behind_gate(format, generation);
    write_behind(disk, file, 1, &bytes)
}

/// Makes a journal of a prepared file, in two calls of the disk: opens the gate of its header, and
/// waits until it is on the disk. At each moment the file has no open header or is that journal;
/// after `Ok` every crash leaves the journal.
pub fn publish<D: Disk>(disk: &mut D, file: u8) -> Result<(), DiskFault>
    requires file { file < 2 }
    requires prepared { ForSome (D.tells disk.old).files (λ two. IsPrepared two file) }
    ensures published { OnOk result (RelatesTold (PublishesHeader file) (D.tells disk.old).files
        (D.tells disk.new).files) }
    ensures any_moment { (two : Two File) → (D.tells disk.old).files ≡ Some two
        → PassedMoments two (D.tells disk.old) (D.tells disk.new) file
        (ShutOrOpened (file_of two file).now) }
    ensures run { DiskRun (D.tells disk.old) (D.tells disk.new) }
    ensures fault { HasCause (D.tells disk.old).disk_faults (D.tells disk.new).disk_faults result }
    ensures calls { MakesCalls 2 result (D.tells disk.old) (D.tells disk.new) }
{
    open_gate(disk, file, 1)
}

// A header but for its gate, and a closed gate.
fn behind_gate(format: u8, generation: u64) -> [u8; 14]
    ensures { result ≡ behind_gate format generation }
{
    let [a, b, c, d, e, f, g, h] = generation.to_be_bytes();
    [b'B', b'S', b'P', b'J', format, a, b, c, d, e, f, g, h, 0]
}

/// Empties a file for a journal: at each moment it is as it was, or has no open header. After `Ok`
/// it is one byte long, which is no open gate, and nothing is pending in it.
pub fn clear<D: Disk>(disk: &mut D, file: u8) -> Result<(), DiskFault>
    requires { file < 2 }
    ensures cleared { OnOk result (RelatesTold (ClearsFile file) (D.tells disk.old).files
        (D.tells disk.new).files) }
    ensures any_moment { (two : Two File) → (D.tells disk.old).files ≡ Some two
        → NothingPending two file → PassedMoments two (D.tells disk.old) (D.tells disk.new) file
        (BeforeOrShut (file_of two file).now) }
    ensures run { DiskRun (D.tells disk.old) (D.tells disk.new) }
    ensures fault { HasCause (D.tells disk.old).disk_faults (D.tells disk.new).disk_faults result }
    ensures calls { MakesAtMost 6 (D.tells disk.old) (D.tells disk.new) }
{
    shut_gate(disk, file)?;
    shorten(disk, file)
}

/// Puts a closed gate in the place of an open one, or of none: the begin of `clear`. At each moment
/// the file is as it was, or has no open header; after `Ok` its first byte is no open gate.
pub fn shut_gate<D: Disk>(disk: &mut D, file: u8) -> Result<(), DiskFault>
    requires { file < 2 }
    ensures shut { OnOk result (RelatesTold (ShutsGate file) (D.tells disk.old).files
        (D.tells disk.new).files) }
    ensures any_moment { (two : Two File) → (D.tells disk.old).files ≡ Some two
        → NothingPending two file → PassedMoments two (D.tells disk.old) (D.tells disk.new) file
        (BeforeOrShut (file_of two file).now) }
    ensures run { DiskRun (D.tells disk.old) (D.tells disk.new) }
    ensures fault { HasCause (D.tells disk.old).disk_faults (D.tells disk.new).disk_faults result }
    ensures calls { MakesAtMost 3 (D.tells disk.old) (D.tells disk.new) }
{
    let mut gate = [0u8; 1];
    let n = disk.read_at(file, 0, &mut gate)?;
    if is_shut(n, gate[0]) {
        return Ok(());
    }
    disk.write_at(file, 0, &[0])?;
    disk.sync(file)?;
    Ok(())
}

// Whether a byte was read, and is no open gate.
fn is_shut(n: usize, gate: u8) -> bool
    ensures { result ≡ (nat_lt 0 n && not (gate == 1)) }
{
    n > 0 && gate != 1
}

/// Cuts a file whose gate is closed to that gate, and waits until that is on the disk: the end of
/// `clear`. At each moment the file has no open header.
pub fn shorten<D: Disk>(disk: &mut D, file: u8) -> Result<(), DiskFault>
    requires file { file < 2 }
    requires shut { ForSome (D.tells disk.old).files (λ two. HasShutGate (file_of two file).now) }
    ensures shortened { OnOk result (RelatesTold (CutsToFirstByte file) (D.tells disk.old).files
        (D.tells disk.new).files) }
    ensures any_moment { (two : Two File) → (D.tells disk.old).files ≡ Some two
        → NothingPending two file → PassedMoments two (D.tells disk.old) (D.tells disk.new) file
        (λ left. is_open left ≡ false) }
    ensures leaves { RelatesTold (LeavesClosed file) (D.tells disk.old).files
        (D.tells disk.new).files }
    ensures run { DiskRun (D.tells disk.old) (D.tells disk.new) }
    ensures fault { HasCause (D.tells disk.old).disk_faults (D.tells disk.new).disk_faults result }
    ensures calls { MakesAtMost 3 (D.tells disk.old) (D.tells disk.new) }
{
    let len = disk.len(file)?;
    if len <= 1 {
        return Ok(());
    }
    disk.cut(file, 1)?;
    disk.sync(file)?;
    Ok(())
}

/// Cuts a file whose header no crash opens to its first byte, in one call of the disk, and does not
/// wait until that is on the disk: whatever a crash leaves then, the header is not open. A cut to
/// nothing would not do: a later write of the first byte could then be pending beside it.
pub fn cut_back<D: Disk>(disk: &mut D, file: u8) -> Result<(), DiskFault>
    requires file { file < 2 }
    requires closed { ForSome (D.tells disk.old).files (λ two. StaysClosed (file_of two file)) }
    ensures cut { OnOk result (RelatesTold (IsCutBack file) (D.tells disk.old).files
        (D.tells disk.new).files) }
    ensures any_moment { (two : Two File) → (D.tells disk.old).files ≡ Some two
        → PassedMoments two (D.tells disk.old) (D.tells disk.new) file (λ left. is_open left ≡ false) }
    ensures leaves { RelatesTold (LeavesClosed file) (D.tells disk.old).files
        (D.tells disk.new).files }
    ensures run { DiskRun (D.tells disk.old) (D.tells disk.new) }
    ensures fault { HasCause (D.tells disk.old).disk_faults (D.tells disk.new).disk_faults result }
    ensures calls { MakesJust 1 (D.tells disk.old) (D.tells disk.new) }
{
    disk.cut(file, 1)?;
    Ok(())
}

/// The same, and then it waits until that is on the disk, in a second call: after `Ok` the file is
/// as `clear` leaves it.
pub fn clear_back<D: Disk>(disk: &mut D, file: u8) -> Result<(), DiskFault>
    requires file { file < 2 }
    requires closed { ForSome (D.tells disk.old).files (λ two. StaysClosed (file_of two file)) }
    ensures cleared { OnOk result (RelatesTold (IsClearedAgain file) (D.tells disk.old).files
        (D.tells disk.new).files) }
    ensures any_moment { (two : Two File) → (D.tells disk.old).files ≡ Some two
        → PassedMoments two (D.tells disk.old) (D.tells disk.new) file (λ left. is_open left ≡ false) }
    ensures leaves { RelatesTold (LeavesClosed file) (D.tells disk.old).files
        (D.tells disk.new).files }
    ensures run { DiskRun (D.tells disk.old) (D.tells disk.new) }
    ensures fault { HasCause (D.tells disk.old).disk_faults (D.tells disk.new).disk_faults result }
    ensures calls { MakesCalls 2 result (D.tells disk.old) (D.tells disk.new) }
{
    cut_back(disk, file)?;
    disk.sync(file)?;
    Ok(())
}
