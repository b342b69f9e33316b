//! A compaction that is stopped at each call of the disk, and what crashes then leave.

use crate::case::Case;
use crate::files::{HEADER, journal_of};
use crate::stops::PICKS;
use anyhow::{Context, Result};
use outside::MemDisk;
use std::alloc::{AllocError, Global};

// How many images had the journal that was compacted, and how many its brief account; and how many
// had neither.
#[derive(Clone, Copy)]
struct Images {
    before: u64,
    behind: u64,
    apart: u64,
}

/// Stops `compact` at each call that it makes, and tells what the images had that a crash may then
/// leave. Over each of them `show` opens the store, and `compact` comes to the same brief account.
pub(crate) fn play_stops(alloc: Global, case: &Case) -> Result<String> {
    let mut images = Images {
        before: 0,
        behind: 0,
        apart: 0,
    };
    let whole = case.commanded("compact", case.stage()?)?;
    let done = whole.disk();
    for call in 0..done.calls() {
        stop_at(alloc, case, done, call, &mut images)?;
    }
    Ok(line_of(alloc, images)?)
}

fn line_of(alloc: Global, images: Images) -> Result<String, AllocError> {
    let Images {
        before,
        behind,
        apart,
    } = images;
    format!(in alloc; "stopped: {before} before, {behind} behind, {apart} apart")
}

// Stops at one call, and looks at each image.
fn stop_at(
    alloc: Global,
    case: &Case,
    done: &MemDisk,
    call: u64,
    images: &mut Images,
) -> Result<()> {
    let mut stage = case.stage()?;
    stage.stop_at(call);
    let came = case.commanded("compact", stage)?;
    for pick in &PICKS {
        look_at(alloc, &came.disk().image(*pick)?, done, images)?;
    }
    Ok(())
}

// Looks at an image, where a compaction that is done leaves this disk.
fn look_at(alloc: Global, image: &MemDisk, done: &MemDisk, images: &mut Images) -> Result<()> {
    if !ends_as(alloc, image, done)? {
        images.apart = images.apart.saturating_add(1);
    } else if journal_of(image) == journal_of(done) {
        images.behind = images.behind.saturating_add(1);
    } else {
        images.before = images.before.saturating_add(1);
    }
    Ok(())
}

// Whether the store of an image opens, and is compacted to the same brief account, whatever its
// generation then is.
fn ends_as(alloc: Global, image: &MemDisk, done: &MemDisk) -> Result<bool> {
    let left = Case::over(alloc, image)?;
    let shown = left.commanded("show", left.stage()?)?;
    let again = left.commanded("compact", left.stage()?)?;
    let same = frames_of(again.disk())? == frames_of(done)?;
    Ok(same & (shown.status == 0) & (again.status == 0))
}

// The frames of a journal.
fn frames_of(disk: &MemDisk) -> Result<&[u8]> {
    journal_of(disk).get(HEADER..).context("no header")
}
