//! The lines of the commands that read a stream of records.
ghost use Rattle.std.specs.Prelude.{◌≡◌, ◌≢◌, ◌++◌, codes, OnOk};
ghost use Rattle.std.specs.String.{string_bytes};
ghost use Rattle.hex.specs.Hex.{encode_lower};
ghost use Rattle.sync_words.specs.StreamTexts.{ids_text, message_text, placed_text, record_text};
ghost use Rattle.sync_words.specs.StreamTexts.{skipped_text, try_text, try_word};

use crate::digits::add_id;
use std::alloc::{AllocError, Global};
use sync_ids::{Message, MessageId, Record, message_id};
use sync_rules::Fate;

// What a line of `try` says. A message that is not judged is said to wait.
fn try_word(fate: Fate) -> &'static str
    ensures { result.now ≡ try_word fate }
{
    match fate {
        Fate::Delivered => "deliver",
        Fate::Invalid => "invalid",
        Fate::Pending | Fate::Unknown => "pending",
    }
}

/// Appends the line of `try` on a message: its state, its id, its time and the length of its body.
/// It fails only for want of memory, and then nothing is said of what was appended.
pub fn try_line(
    fate: Fate,
    id: &MessageId,
    timestamp: u64,
    len: u32,
    to: &mut String,
) -> Result<(), AllocError>
    requires { fate ≢ Fate.Unknown }
    ensures { OnOk result (string_bytes to.new ≡ string_bytes to.old ++ try_text fate id.now
        timestamp len) }
{
    to.push_str(try_word(fate))?;
    to.push(' ')?;
    add_id(id, to)?;
    writeln!(to, " {timestamp} {len}")
}

/// Appends the line of `records` on a record at this place. It fails only for want of memory, and
/// then nothing is said of what was appended.
pub fn record_line(
    alloc: Global,
    place: u64,
    record: &Record,
    to: &mut String,
) -> Result<(), AllocError>
    ensures { OnOk result (string_bytes to.new ≡ string_bytes to.old ++ placed_text place
        «record».now) }
{
    write!(to, "{place} ")?;
    add_record(alloc, record, to)?;
    to.push('\n')
}

/// Appends the line of `records` on a skipped record: its place, its byte of type and the length of
/// its payload. It fails only for want of memory, and then nothing is said of what was appended.
pub fn skipped_line(place: u64, type_byte: u8, len: u64, to: &mut String) -> Result<(), AllocError>
    ensures { OnOk result (string_bytes to.new ≡ string_bytes to.old ++ skipped_text place type_byte
        len) }
{
    writeln!(to, "{place} SKIPPED {type_byte} {len}")
}

// What stands behind the place.
fn add_record(alloc: Global, record: &Record, to: &mut String) -> Result<(), AllocError>
    ensures { OnOk result (string_bytes to.new ≡ string_bytes to.old ++ record_text «record».now) }
{
    match record {
        Record::Ack(ids) => add_ids("ACK", ids.as_slice(), to),
        Record::Message(message) => add_message(message, to),
        Record::Offer(ids) => add_ids("OFFER", ids.as_slice(), to),
        Record::Request(ids) => add_ids("REQUEST", ids.as_slice(), to),
        Record::Versions(versions) => add_hex(alloc, "VERSIONS ", versions.as_slice(), to),
        Record::Priority(nonce) => add_hex(alloc, "PRIORITY ", nonce.as_bytes(), to),
    }
}

// A word and the digits of some bytes.
fn add_hex(alloc: Global, word: &str, bytes: &[u8], to: &mut String) -> Result<(), AllocError>
    ensures { OnOk result
        (string_bytes to.new ≡ string_bytes to.old ++ (word.now ++ encode_lower bytes.now)) }
{
    let digits = hex::encode(alloc, bytes)?;
    to.push_str(word)?;
    to.push_str(digits.as_str())
}

// A word and ids.
fn add_ids(word: &str, ids: &[MessageId], to: &mut String) -> Result<(), AllocError>
    ensures { OnOk result
        (string_bytes to.new ≡ string_bytes to.old ++ (word.now ++ ids_text ids.now)) }
{
    to.push_str(word)?;
    'ids: for id in ids {
        to.push(' ')?;
        add_id(id, to)?;
    }
    Ok(())
}

// A message's id, its group, its time and the length of its body.
fn add_message(message: &Message, to: &mut String) -> Result<(), AllocError>
    ensures { OnOk result
        (string_bytes to.new ≡ string_bytes to.old ++ (codes "MESSAGE" ++ message_text
        message.now)) }
{
    let group = message.group();
    let time = message.timestamp();
    let body = message.body();
    let id = message_id(&group, time, body);
    let len = body.len();
    to.push_str("MESSAGE ")?;
    add_id(&id, to)?;
    to.push(' ')?;
    add_id(&group, to)?;
    write!(to, " {time} {len}")
}
