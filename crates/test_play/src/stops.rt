//! A command that is stopped at each call of the disk, and what crashes then leave.

use crate::case::Case;
use crate::command::Came;
use anyhow::{Context, Result};
use outside::{LINKS, MemDisk, Pick};
use record_grammar::{Found, read_one};
use std::alloc::{AllocError, Global};
use sync_ids::{MessageId, Record};

/// The images that a crash may leave.
pub(crate) static PICKS: [Pick; 4] = [Pick::Old, Pick::New, Pick::Zero, Pick::Ones];

// What the images of a command came to.
#[derive(Clone, Copy)]
struct Tally {
    apart: u64,
    acknowledged: u64,
}

// What is shown of an image, and whether it holds all that was acknowledged before the stop.
#[derive(Clone, Copy)]
struct Image<'a> {
    shown: &'a str,
    acknowledged: u64,
    holds: bool,
}

/// Stops the command of these words at each call that it makes, and behind the last, and tells
/// whether an image was apart, and whether something was acknowledged before some stop.
pub(crate) fn play_stops(alloc: Global, case: &Case, words: &str) -> Result<String> {
    let mut tally = Tally {
        apart: 0,
        acknowledged: 0,
    };
    for call in 0..=calls_of(case, words)? {
        stop_at(alloc, case, words, call, &mut tally)?;
    }
    Ok(line_of(alloc, tally)?)
}

fn line_of(alloc: Global, tally: Tally) -> Result<String, AllocError> {
    let acknowledged = tally.acknowledged > 0;
    format!(in alloc;
        "stopped: {} apart, acknowledged {acknowledged}",
        tally.apart
    )
}

// How many calls of the disk the command makes.
fn calls_of(case: &Case, words: &str) -> Result<u64> {
    let whole = case.commanded(words, case.stage()?)?;
    Ok(whole.disk().calls())
}

fn stop_at(alloc: Global, case: &Case, words: &str, call: u64, tally: &mut Tally) -> Result<()> {
    let mut stage = case.stage()?;
    stage.stop_at(call);
    let came = case.commanded(words, stage)?;
    look_at_images(alloc, case, &came, tally)
}

// Looks at each image that a crash may leave of a command.
fn look_at_images(alloc: Global, case: &Case, came: &Came, tally: &mut Tally) -> Result<()> {
    for pick in &PICKS {
        let image = came.disk().image(*pick)?;
        let goes_on = goes_on(case.file(), &image);
        let left = Case::over(alloc, &image)?;
        let shown = left.commanded("show", left.stage()?)?;
        if !(goes_on & is_sound(alloc, came, &shown, tally)?) {
            tally.apart = tally.apart.saturating_add(1);
        }
    }
    Ok(())
}

// Whether file 0 begins with all that it had before its last byte, the closed gate.
fn goes_on(before: &[u8], image: &MemDisk) -> bool {
    let (_, front) = before.split_last().unwrap_or((&0, &[]));
    image.file(0).starts_with(front)
}

// Whether an image opens, by what `show` came to, and holds what a command acknowledged on its links
// and in the file that it wrote.
fn is_sound(alloc: Global, came: &Came, shown: &Came, tally: &mut Tally) -> Result<bool> {
    let mut image = Image {
        shown: shown.out_text()?,
        acknowledged: tally.acknowledged,
        holds: shown.status == 0,
    };
    for link in 0..LINKS {
        hear_all(alloc, came.host().sent(link as u8), &mut image)?;
    }
    hear_all(alloc, came.out_bytes(), &mut image)?;
    tally.acknowledged = image.acknowledged;
    Ok(image.holds)
}

// Hears the records of these bytes.
fn hear_all(alloc: Global, sent: &[u8], image: &mut Image<'_>) -> Result<()> {
    let mut rest = sent;
    for _ in 0..sent.len() {
        let Some(len) = hear_one(alloc, rest, image)? else {
            break;
        };
        rest = rest.get(len..).context("a record past its bytes")?;
    }
    Ok(())
}

// Hears the record at the front of these bytes, if one is there, and tells its length.
fn hear_one(alloc: Global, bytes: &[u8], image: &mut Image<'_>) -> Result<Option<usize>> {
    match read_one(alloc, bytes)? {
        Found::One(record, len) => {
            hear(alloc, &record, image)?;
            Ok(Some(len))
        }
        _ => Ok(None),
    }
}

// Each message that a record acknowledges is to be among those shown.
fn hear(alloc: Global, record: &Record, image: &mut Image<'_>) -> Result<(), AllocError> {
    if let Record::Ack(ids) = record {
        for id in ids.as_slice() {
            let line = line_of_message(alloc, id)?;
            image.acknowledged = image.acknowledged.saturating_add(1);
            image.holds &= image.shown.contains(line.as_str());
        }
    }
    Ok(())
}

// The front of the line that tells of a message.
fn line_of_message(alloc: Global, id: &MessageId) -> Result<String, AllocError> {
    let digits = hex::encode(alloc, id.as_bytes())?;
    format!(in alloc; "message {} ", digits.as_str())
}
