//! Spelling records.
ghost use Rattle.std.specs.Prelude.{◌≡◌, ◌++◌, ◌^◌, ◌<◌, length, take, OnOk, OnErr};
ghost use Rattle.record_grammar.specs.Spelling.{AddsTo, Spells, framed, header, joined};
ghost use Rattle.record_grammar.specs.Spelling.{message_payload, spelling};
ghost use Rattle.sync_ids.specs.Values.{AreIds, IsIdList, IsMessage, IsVersionList};

use crate::front::{BODY_AT, ID_LEN};
use std::alloc::AllocError;
use sync_ids::{IdList, MAX_IDS, Message, MessageId, Nonce, Record, VersionList};

fn append_header(type_byte: u8, len: usize, to: &mut Vec<u8>) -> Result<(), AllocError>
    requires { len < 2 ^ 16 }
    ensures ok { OnOk result (to.new.items ≡ to.old.items ++ header type_byte len) }
    ensures err { OnErr result (to.new.items ≡ to.old.items) }
{
    let [high, low] = (len as u16).to_be_bytes();
    to.extend_from_slice(&[0, type_byte, high, low])
}

fn append_ids(ids: &[MessageId], to: &mut Vec<u8>) -> Result<(), AllocError>
    ensures ok { OnOk result (to.new.items ≡ to.old.items ++ joined ids.now) }
    ensures whole { OnOk result (AreIds ids.now) }
    ensures err { OnErr result (AddsTo to.old.items to.new.items) }
{
    'ids: for id in ids {
        to.extend_from_slice(id.as_bytes())?;
    }
    Ok(())
}

fn append_list(type_byte: u8, ids: &IdList<MAX_IDS>, to: &mut Vec<u8>) -> Result<(), AllocError>
    ensures ok { OnOk result (to.new.items ≡ to.old.items ++ framed type_byte (joined ids.now)) }
    ensures within { IsIdList MAX_IDS ids.now }
    ensures err { OnErr result (AddsTo to.old.items to.new.items) }
{
    let ids = ids.as_slice();
    append_header(type_byte, ID_LEN * ids.len(), to)?;
    append_ids(ids, to)
}

fn append_message(message: &Message, to: &mut Vec<u8>) -> Result<(), AllocError>
    ensures ok { OnOk result (to.new.items ≡ to.old.items ++ framed 1
        (message_payload message.now)) }
    ensures within { IsMessage message.now }
    ensures err { OnErr result (AddsTo to.old.items to.new.items) }
{
    let body = message.body();
    append_header(1, BODY_AT + body.len(), to)?;
    to.extend_from_slice(message.group().as_bytes())?;
    to.extend_from_slice(&message.timestamp().to_be_bytes())?;
    to.extend_from_slice(body)
}

fn append_bytes(type_byte: u8, bytes: &[u8], to: &mut Vec<u8>) -> Result<(), AllocError>
    requires { length bytes.now < 2 ^ 16 }
    ensures ok { OnOk result (to.new.items ≡ to.old.items ++ framed type_byte bytes.now) }
    ensures err { OnErr result (AddsTo to.old.items to.new.items) }
{
    append_header(type_byte, bytes.len(), to)?;
    to.extend_from_slice(bytes)
}

// Where a record was appended in part alone, cuts that part off again; `len` bytes stood before.
fn whole_or_none(
    appended: Result<(), AllocError>,
    len: usize,
    to: &mut Vec<u8>,
) -> Result<(), AllocError>
    ensures same { result ≡ appended }
    ensures ok { OnOk result (to.new.items ≡ to.old.items) }
    ensures err { OnErr result (to.new.items ≡ take len to.old.items) }
{
    if appended.is_err() {
        to.truncate(len);
    }
    appended
}

// Appends the spelling of a record that is a list of ids, by its byte of type.
fn encode_list(type_byte: u8, ids: &IdList<MAX_IDS>, to: &mut Vec<u8>) -> Result<(), AllocError>
    ensures ok { OnOk result (to.new.items ≡ to.old.items ++ framed type_byte (joined ids.now)) }
    ensures within { IsIdList MAX_IDS ids.now }
    ensures err { OnErr result (to.new.items ≡ to.old.items) }
{
    let len = to.len();
    let appended = append_list(type_byte, ids, to);
    whole_or_none(appended, len, to)
}

/// Appends the one spelling of an ACK of these ids (BSP, "Records"). It fails only for want of
/// memory, and then leaves the bytes as they were.
#[tactic(auto, unfolding(crate::specs::Spelling::spelling))]
pub fn encode_ack(ids: &IdList<MAX_IDS>, to: &mut Vec<u8>) -> Result<(), AllocError>
    ensures ok { OnOk result (to.new.items ≡ to.old.items ++ spelling (Record.Ack ids.now)) }
    ensures spells { Spells (Record.Ack ids.now) (spelling (Record.Ack ids.now)) }
    ensures err { OnErr result (to.new.items ≡ to.old.items) }
{
    encode_list(0, ids, to)
}

/// Appends the one spelling of a MESSAGE, without a copy of its body (BSP, "Records"). It fails
/// only for want of memory, and then leaves the bytes as they were.
#[tactic(auto, unfolding(crate::specs::Spelling::spelling))]
pub fn encode_message(message: &Message, to: &mut Vec<u8>) -> Result<(), AllocError>
    ensures ok { OnOk result (to.new.items ≡ to.old.items
        ++ spelling (Record.Message message.now)) }
    ensures spells { Spells (Record.Message message.now) (spelling (Record.Message message.now)) }
    ensures err { OnErr result (to.new.items ≡ to.old.items) }
{
    let len = to.len();
    let appended = append_message(message, to);
    whole_or_none(appended, len, to)
}

/// Appends the one spelling of an OFFER of these ids (BSP, "Records"). It fails only for want of
/// memory, and then leaves the bytes as they were.
#[tactic(auto, unfolding(crate::specs::Spelling::spelling))]
pub fn encode_offer(ids: &IdList<MAX_IDS>, to: &mut Vec<u8>) -> Result<(), AllocError>
    ensures ok { OnOk result (to.new.items ≡ to.old.items ++ spelling (Record.Offer ids.now)) }
    ensures spells { Spells (Record.Offer ids.now) (spelling (Record.Offer ids.now)) }
    ensures err { OnErr result (to.new.items ≡ to.old.items) }
{
    encode_list(2, ids, to)
}

/// Appends the one spelling of a REQUEST of these ids (BSP, "Records"). It fails only for want of
/// memory, and then leaves the bytes as they were.
#[tactic(auto, unfolding(crate::specs::Spelling::spelling))]
pub fn encode_request(ids: &IdList<MAX_IDS>, to: &mut Vec<u8>) -> Result<(), AllocError>
    ensures ok { OnOk result (to.new.items ≡ to.old.items ++ spelling (Record.Request ids.now)) }
    ensures spells { Spells (Record.Request ids.now) (spelling (Record.Request ids.now)) }
    ensures err { OnErr result (to.new.items ≡ to.old.items) }
{
    encode_list(3, ids, to)
}

/// Appends the one spelling of these VERSIONS (BSP, "Records"). It fails only for want of memory,
/// and then leaves the bytes as they were.
#[tactic(auto, unfolding(crate::specs::Spelling::spelling))]
pub fn encode_versions(versions: &VersionList, to: &mut Vec<u8>) -> Result<(), AllocError>
    ensures ok { OnOk result (to.new.items ≡ to.old.items
        ++ spelling (Record.Versions versions.now)) }
    ensures spells { Spells (Record.Versions versions.now)
        (spelling (Record.Versions versions.now)) }
    ensures err { OnErr result (to.new.items ≡ to.old.items) }
{
    let len = to.len();
    let appended = append_bytes(4, versions.as_slice(), to);
    whole_or_none(appended, len, to)
}

/// Appends the one spelling of a PRIORITY of this nonce (this project's profile). It fails only for
/// want of memory, and then leaves the bytes as they were.
#[tactic(auto, unfolding(crate::specs::Spelling::spelling))]
pub fn encode_priority(nonce: &Nonce, to: &mut Vec<u8>) -> Result<(), AllocError>
    ensures ok { OnOk result (to.new.items ≡ to.old.items
        ++ spelling (Record.Priority nonce.now)) }
    ensures spells { Spells (Record.Priority nonce.now) (spelling (Record.Priority nonce.now)) }
    ensures err { OnErr result (to.new.items ≡ to.old.items) }
{
    let len = to.len();
    let appended = append_bytes(5, nonce.as_bytes(), to);
    whole_or_none(appended, len, to)
}

/// Appends the one spelling of a record (BSP, "Records"). It fails only for want of memory, and
/// then leaves the bytes as they were.
pub fn encode(rec: &Record, to: &mut Vec<u8>) -> Result<(), AllocError>
    ensures ok { OnOk result (to.new.items ≡ to.old.items ++ spelling rec.now) }
    ensures spells { Spells rec.now (spelling rec.now) }
    ensures err { OnErr result (to.new.items ≡ to.old.items) }
{
    match rec {
        Record::Ack(ids) => encode_ack(ids, to),
        Record::Message(message) => encode_message(message, to),
        Record::Offer(ids) => encode_offer(ids, to),
        Record::Request(ids) => encode_request(ids, to),
        Record::Versions(versions) => encode_versions(versions, to),
        Record::Priority(nonce) => encode_priority(nonce, to),
    }
}
