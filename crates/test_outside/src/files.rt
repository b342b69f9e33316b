ghost use Rattle.std.specs.Prelude.{◌<◌};

use crate::checks::{holds, kept, same};
use crate::real::{RealHost, reading_host, real_host, writing_host};
use outside::{Disk, Failed, Host, Sink, Source};
use outside_real::{EarlySource, FileHost, StdSink, StdSource};
use std::alloc::AllocError;
use std::fs;
use std::fs::{File, Files, Permissions};
use std::os::unix::fs::{PermissionsExt, symlink};
use std::process::Abort;

// A call on a file of a disk, its arguments and what it answers. A read has room for so many bytes,
// eight at most, and answers with the bytes.
#[derive(Clone, Copy)]
enum Call {
    Len(u8, Result<u64, Failed>),
    Read(u8, u64, usize, Result<&'static [u8], Failed>),
    Write(u8, u64, &'static [u8], Result<(), Failed>),
    Cut(u8, u64, Result<(), Failed>),
    Sync(u8, Result<(), Failed>),
}

// Whether a read into a buffer of nines answers so, and leaves those behind what was read.
fn reads(
    host: &mut FileHost<HostRuntime>,
    file: u8,
    at: u64,
    room: usize,
    expected: Result<&[u8], Failed>,
) -> bool
    requires { file < 2 }
{
    let mut buf = [9u8; 8];
    let Ok(len) = host.read_at(file, at, &mut buf[..room.min(8)]) else {
        return expected.is_err();
    };
    let (bytes, rest) = buf.split_at(len.min(8));
    expected == Ok(bytes) && rest.iter().all(|byte| *byte == 9)
}

// Whether the call answers so.
fn answers(host: &mut FileHost<HostRuntime>, call: &Call) -> bool {
    match *call {
        Call::Len(file, len) => host.len(file.min(1)) == len,
        Call::Read(file, at, room, bytes) => reads(host, file.min(1), at, room, bytes),
        Call::Write(file, at, bytes, answer) => host.write_at(file.min(1), at, bytes) == answer,
        Call::Cut(file, len, answer) => host.cut(file.min(1), len) == answer,
        Call::Sync(file, answer) => host.sync(file.min(1)) == answer,
    }
}

// Makes the calls: the number of the first one that answers otherwise.
fn first_of(host: &mut FileHost<HostRuntime>, calls: &[Call]) -> Option<usize> {
    for (number, call) in calls.iter().enumerate() {
        if !answers(host, call) {
            return Some(number);
        }
    }
    None
}

// Makes the calls on the files of a folder, as a host that is new finds them: the number of the
// first one that answers otherwise.
fn first_apart(rt: HostRuntime, folder: &str, calls: &[Call]) -> Result<Option<usize>, AllocError> {
    let mut host = real_host(rt, folder)?;
    Ok(first_of(&mut host.host, calls))
}

// Makes a folder, which is not there.
fn make_folder<R: Abort + Files>(rt: &R, folder: &str) {
    kept(rt, fs::create_dir(rt, folder));
}

fn write_file<R: Abort + Files>(rt: &R, path: &str, bytes: &[u8]) {
    kept(rt, fs::write(rt, path, bytes));
}

fn allow<R: Abort + Files>(rt: &R, path: &str, mode: u32) {
    kept(
        rt,
        fs::set_permissions(rt, path, Permissions::from_mode(mode)),
    );
}

// Removes a folder with what is in it.
fn remove_folder<R: Abort + Files + Alloc>(rt: &R, folder: &str) {
    kept(rt, fs::remove_dir_all(rt, folder));
}

static ON_A_DISK: [Call; 10] = [
    Call::Len(0, Ok(0)),
    Call::Read(0, 0, 8, Ok(b"")),
    Call::Sync(0, Ok(())),
    Call::Cut(0, 0, Ok(())),
    Call::Write(0, 0, b"abcdef", Ok(())),
    Call::Write(0, 4, b"XYZ", Ok(())),
    Call::Read(0, 2, 8, Ok(b"cdXYZ")),
    Call::Cut(0, 3, Ok(())),
    Call::Sync(0, Ok(())),
    Call::Len(0, Ok(3)),
];

static KEPT: [Call; 2] = [Call::Len(0, Ok(3)), Call::Len(1, Ok(0))];

#[test]
fn a_disk_of_files(rt: HostRuntime) {
    let folder = "files_of_a_disk";
    make_folder(&rt, folder);
    same(&rt, &first_apart(rt, folder, &ON_A_DISK), &Ok(None));
    let bytes = kept(&rt, fs::read(&rt, "files_of_a_disk/bsp.0"));
    same(&rt, &bytes.as_slice(), &b"abc".as_slice());
    holds(
        &rt,
        "one file",
        fs::metadata(&rt, "files_of_a_disk/bsp.1").is_err(),
    );
    same(&rt, &first_apart(rt, folder, &KEPT), &Ok(None));
    remove_folder(&rt, folder);
}

// The file has 600,000 sevens.
static AHEAD: [Call; 11] = [
    Call::Read(0, 262_142, 3, Ok(b"\x07\x07\x07")),
    Call::Read(0, 5, 3, Ok(b"\x07\x07\x07")),
    Call::Write(0, 6, b"ab", Ok(())),
    Call::Read(0, 5, 3, Ok(b"\x07ab")),
    Call::Cut(0, 7, Ok(())),
    Call::Read(0, 5, 3, Ok(b"\x07a")),
    Call::Len(0, Ok(7)),
    Call::Write(0, 7, b"cd", Ok(())),
    Call::Read(0, 6, 3, Ok(b"acd")),
    Call::Read(0, 9, 3, Ok(b"")),
    Call::Len(0, Ok(9)),
];

#[test]
fn reads_ahead(rt: HostRuntime) {
    let folder = "files_read_ahead";
    make_folder(&rt, folder);
    let bytes = kept(&rt, vec![in rt.alloc(); 7; 600_000]);
    write_file(&rt, "files_read_ahead/bsp.0", bytes.as_slice());
    same(&rt, &first_apart(rt, folder, &AHEAD), &Ok(None));
    write_file(&rt, "files_read_ahead/bsp.1", bytes.as_slice());
    same(&rt, &reads_much(rt, folder), &Ok(true));
    remove_folder(&rt, folder);
}

// Whether a host reads more at a call than it reads ahead.
fn reads_much(rt: HostRuntime, folder: &str) -> Result<bool, AllocError> {
    let mut large = vec![in rt.alloc(); 0; 300_000]?;
    let mut host = real_host(rt, folder)?;
    let answer = host.host.read_at(1, 1, large.as_mut_slice());
    Ok(answer == Ok(300_000) && large.last() == Some(&7))
}

static NOT_SYNCED: [Call; 8] = [
    Call::Sync(0, Err(Failed)),
    Call::Sync(0, Err(Failed)),
    Call::Len(0, Err(Failed)),
    Call::Read(0, 0, 3, Err(Failed)),
    Call::Write(0, 0, b"a", Err(Failed)),
    Call::Cut(0, 0, Err(Failed)),
    Call::Len(1, Ok(0)),
    Call::Sync(1, Ok(())),
];

// The folder is moved once a file was written there, so the sync of the file's name fails.
#[test]
fn a_failed_sync_is_final(rt: HostRuntime) {
    let folder = "files_not_synced";
    make_folder(&rt, folder);
    let moved = "files_not_synced_moved";
    same(&rt, &first_moved(rt, folder, moved), &Ok(None));
    remove_folder(&rt, moved);
}

// Writes a file of a folder, moves that and makes the calls: the number of the first one that
// answers otherwise, or the greatest where it was not written or moved.
fn first_moved(rt: HostRuntime, folder: &str, moved: &str) -> Result<Option<usize>, AllocError> {
    let mut host = real_host(rt, folder)?;
    let is_written = host.host.write_at(0, 0, b"abc").is_ok();
    if is_written && fs::rename(&rt, folder, moved).is_ok() {
        Ok(first_of(&mut host.host, &NOT_SYNCED))
    } else {
        Ok(Some(usize::MAX))
    }
}

// The first file is none of a store.
static NO_FILE: [Call; 4] = [
    Call::Len(0, Err(Failed)),
    Call::Sync(0, Err(Failed)),
    Call::Write(0, 0, b"a", Err(Failed)),
    Call::Len(1, Ok(0)),
];

#[test]
fn a_file_of_two_names(rt: HostRuntime) {
    let folder = "files_of_two_names";
    make_folder(&rt, folder);
    write_file(&rt, "files_of_two_names/other", b"abc");
    kept(
        &rt,
        fs::hard_link(&rt, "files_of_two_names/other", "files_of_two_names/bsp.0"),
    );
    same(&rt, &first_apart(rt, folder, &NO_FILE), &Ok(None));
    kept(&rt, fs::remove_file(&rt, "files_of_two_names/bsp.0"));
    kept(&rt, symlink(&rt, "other", "files_of_two_names/bsp.0"));
    same(&rt, &first_apart(rt, folder, &NO_FILE), &Ok(None));
    remove_folder(&rt, folder);
}

static LET_GO: [Call; 5] = [
    Call::Len(0, Err(Failed)),
    Call::Read(0, 0, 3, Err(Failed)),
    Call::Write(0, 0, b"a", Err(Failed)),
    Call::Cut(0, 0, Err(Failed)),
    Call::Sync(0, Err(Failed)),
];

// Once its locks were let go of a host is over, and another one has the files at once.
#[test]
fn locks_are_let_go(rt: HostRuntime) {
    let folder = "files_let_go";
    make_folder(&rt, folder);
    same(&rt, &first_let_go(rt, folder), &Ok(None));
    remove_folder(&rt, folder);
}

fn first_let_go(rt: HostRuntime, folder: &str) -> Result<Option<usize>, AllocError> {
    let mut host = writing_host(rt, folder)?;
    let is_written = host.host.write_at(0, 0, b"abc").is_ok();
    let is_free = let_go(&host)?;
    let mut next = writing_host(rt, folder)?;
    if is_written && is_free && next.host.len(0) == Ok(3) {
        Ok(first_of(&mut host.host, &LET_GO))
    } else {
        Ok(Some(usize::MAX))
    }
}

// Whether there was a lock to let go of, and no call had failed.
fn let_go(host: &RealHost) -> Result<bool, AllocError> {
    let Some(lock) = host.host.lock()? else {
        return Ok(false);
    };
    lock.let_go();
    Ok(host.host.cause().is_none())
}

static TO_READ: [Call; 3] = [
    Call::Sync(0, Ok(())),
    Call::Sync(1, Ok(())),
    Call::Read(0, 0, 4, Ok(b"abc")),
];

#[test]
fn a_folder_that_may_only_be_read(rt: HostRuntime) {
    let folder = "files_to_read";
    make_folder(&rt, folder);
    write_file(&rt, "files_to_read/bsp.0", b"abc");
    allow(&rt, "files_to_read/bsp.0", 0o444);
    allow(&rt, folder, 0o555);
    same(&rt, &first_apart(rt, folder, &TO_READ), &Ok(None));
    allow(&rt, folder, 0o755);
    remove_folder(&rt, folder);
}

static NO_FOLDER: [Call; 2] = [Call::Len(0, Ok(0)), Call::Write(0, 0, b"a", Err(Failed))];

// The second file is a folder.
static A_FOLDER: [Call; 3] = [
    Call::Len(0, Ok(0)),
    Call::Len(1, Err(Failed)),
    Call::Sync(1, Err(Failed)),
];

#[test]
fn no_regular_file(rt: HostRuntime) {
    let folder = "files_and_a_device";
    make_folder(&rt, folder);
    let device = "/dev/null";
    kept(&rt, symlink(&rt, device, "files_and_a_device/bsp.0"));
    same(&rt, &first_apart(rt, folder, &NO_FILE), &Ok(None));
    remove_folder(&rt, folder);
}

#[test]
fn a_file_is_its_owners(rt: HostRuntime) {
    let folder = "files_made";
    make_folder(&rt, folder);
    same(&rt, &first_apart(rt, folder, &ON_A_DISK), &Ok(None));
    let found = kept(&rt, fs::metadata(&rt, "files_made/bsp.0"));
    same(&rt, &(found.permissions().mode() & 0o777), &0o600);
    remove_folder(&rt, folder);
}

#[test]
fn calls_that_fail(rt: HostRuntime) {
    let nowhere = "no_folder";
    same(&rt, &dials_nothing(rt, nowhere), &Ok(true));
    same(&rt, &first_apart(rt, nowhere, &NO_FOLDER), &Ok(None));
    let folder = "a_folder_as_a_file";
    make_folder(&rt, folder);
    make_folder(&rt, "a_folder_as_a_file/bsp.1");
    same(&rt, &first_apart(rt, folder, &A_FOLDER), &Ok(None));
    remove_folder(&rt, folder);
}

// Whether a host dials nobody by a spec of no kind, and has a clock of milliseconds.
fn dials_nothing(rt: HostRuntime, folder: &str) -> Result<bool, AllocError> {
    let mut host = real_host(rt, folder)?;
    let dialled = host.host.dial("nothing");
    Ok(dialled.is_err() && host.host.now() > 1_700_000_000_000)
}

static READ_ALONE: [Call; 6] = [
    Call::Len(0, Ok(3)),
    Call::Read(0, 1, 8, Ok(b"bc")),
    Call::Write(0, 0, b"x", Err(Failed)),
    Call::Cut(0, 0, Err(Failed)),
    Call::Sync(0, Ok(())),
    Call::Len(1, Ok(0)),
];

#[test]
fn a_reader_writes_nothing(rt: HostRuntime) {
    let folder = "files_read_alone";
    make_folder(&rt, folder);
    write_file(&rt, "files_read_alone/bsp.0", b"abc");
    same(&rt, &first_read(rt, folder, &READ_ALONE), &Ok(None));
    let bytes = kept(&rt, fs::read(&rt, "files_read_alone/bsp.0"));
    same(&rt, &bytes.as_slice(), &b"abc".as_slice());
    remove_folder(&rt, folder);
}

// As `first_apart`, for a host that may not write.
fn first_read(rt: HostRuntime, folder: &str, calls: &[Call]) -> Result<Option<usize>, AllocError> {
    let mut host = reading_host(rt, folder)?;
    Ok(first_of(&mut host.host, calls))
}

#[test]
fn an_input_that_is_read_early(rt: HostRuntime) {
    let path = "an_early_stream";
    write_file(&rt, path, b"hello");
    let mut early = EarlySource::new(rt.alloc(), kept(&rt, fs::open(&rt, path)));
    kept(&rt, early.read_early(3));
    holds(&rt, "it reads all", reads_all(early));
    let mut early = EarlySource::new(rt.alloc(), kept(&rt, fs::create(&rt, path)));
    kept(&rt, early.read_early(3));
    holds(&rt, "no read", refuses_a_read(early));
    kept(&rt, fs::remove_file(&rt, path));
}

#[test]
fn streams(rt: HostRuntime) {
    let path = "a_stream";
    let file = kept(&rt, fs::create(&rt, path));
    holds(&rt, "it writes", writes(StdSink::new(file)));
    let file = kept(&rt, fs::open(&rt, path));
    holds(&rt, "it reads all", reads_all(StdSource::new(file)));
    let file = kept(&rt, fs::open(&rt, path));
    holds(&rt, "no write", refuses_a_write(StdSink::new(file)));
    let file = kept(&rt, fs::create(&rt, path));
    holds(&rt, "no read", refuses_a_read(StdSource::new(file)));
    kept(&rt, fs::remove_file(&rt, path));
}

fn writes<S: Sink + Drop>(mut sink: S) -> bool {
    sink.write(b"hello") == Ok(5) && sink.write(b"") == Ok(0)
}

// Whether it reads so much at each call, up to the end.
fn reads_all<S: Source + Drop>(mut source: S) -> bool {
    let mut buf = [0u8; 3];
    for len in [3, 2, 0] {
        if source.read(&mut buf) != Ok(len) {
            return false;
        }
    }
    buf == *b"lol"
}

fn refuses_a_write<S: Sink + Drop>(mut sink: S) -> bool {
    sink.write(b"a").is_err()
}

fn refuses_a_read<S: Source + Drop>(mut source: S) -> bool {
    source.read(&mut [0; 3]).is_err()
}
