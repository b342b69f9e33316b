//! What a crash may leave of a file of a disk in memory.
ghost use Rattle.std.specs.Prelude.{◌≡◌, ℕ, List, ◌≤◌, map, take, length, IfOk, OnOk};
ghost use Rattle.outside.specs.MemDisk.{kept, change_of};
ghost use Rattle.outside.specs.MemImage.{one_after, now_after, now_changed, is_sync_of, PickOf};

use crate::mem_disk::put_bytes;
use crate::replay::{Replay, is_same};
use crate::{Call, Pick};
use std::alloc::{AllocError, Global};

/// One of the images of the file which began so, after these calls.
pub fn image_of(
    alloc: Global,
    start: &[u8],
    calls: &[Call],
    file: u8,
    pick: Pick,
) -> Result<Vec<u8>, AllocError>
    ensures { IfOk result
        (λ v. PickOf pick (one_after file (kept start.now) (map change_of calls.now)) v.items) }
{
    let replay = replayed(alloc, start, calls, file)?;
    match pick {
        Pick::Old => Ok(replay.into_synced()),
        Pick::New => Ok(replay.into_whole()),
        Pick::Zero => replay.filled(0),
        Pick::Ones => replay.filled(1),
    }
}

// The file with what is pending in it; what came before its last sync is read alone.
fn replayed(alloc: Global, start: &[u8], calls: &[Call], file: u8) -> Result<Replay, AllocError>
    ensures { IfOk result (λ r. r ≡ one_after file (kept start.now) (map change_of calls.now)) }
{
    let synced = last_sync(calls, file);
    let base = base_of(alloc, start, &calls[..synced], file)?;
    let mut replay = Replay::new(alloc, base)?;
    for call in &calls[synced..] {
        replay.apply(call, file)?;
    }
    Ok(replay)
}

// How many calls there were up to the last sync of the file.
fn last_sync(calls: &[Call], file: u8) -> usize
    ensures within { result ≤ length calls.now }
    ensures settled { (bytes : List ℕ)
        → one_after file (kept bytes) (map change_of (take result calls.now)) ≡ kept
        (one_after file (kept bytes) (map change_of (take result calls.now))).file.now }
{
    let mut synced = 0;
    for (i, call) in calls.iter().enumerate() {
        if is_sync(call, file) {
            synced = i + 1;
        }
    }
    synced
}

fn is_sync(call: &Call, file: u8) -> bool
    ensures { result ≡ is_sync_of file (change_of call.now) }
{
    match call {
        Call::Synced(other) => is_same(*other, file),
        _ => false,
    }
}

// The file as it reads after these calls.
fn base_of(alloc: Global, start: &[u8], calls: &[Call], file: u8) -> Result<Vec<u8>, AllocError>
    ensures { IfOk result (λ v. v.items ≡ now_after file start.now (map change_of calls.now)) }
{
    let mut bytes = Vec::from_slice(alloc, start)?;
    for call in calls {
        change_bytes(&mut bytes, call, file)?;
    }
    Ok(bytes)
}

// What a call does to the file as it reads.
fn change_bytes(bytes: &mut Vec<u8>, call: &Call, file: u8) -> Result<(), AllocError>
    ensures { OnOk result (bytes.new.items ≡ now_changed file bytes.old.items
        (change_of call.now)) }
{
    match call {
        Call::Wrote(other, at, written) if is_same(*other, file) => {
            let place = (*at as usize).min(bytes.len());
            put_bytes(bytes, place, written)
        }
        Call::Cut(other, len) if is_same(*other, file) => {
            bytes.truncate(*len as usize);
            Ok(())
        }
        _ => Ok(()),
    }
}
