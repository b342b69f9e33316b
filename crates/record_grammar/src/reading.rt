//! Reading a record.
ghost use Rattle.std.specs.Prelude.{◌≡◌, ◌+◌, ◌^◌, ◌<◌, ◌≤◌, length, IfOk};
ghost use Rattle.record_grammar.specs.Laws.{IsSpelled};
ghost use Rattle.record_grammar.specs.Stream.{TellsStream};
ghost use Rattle.record_grammar.specs.Reading.{decided_payload, found_in, found_payload, ids_of};
ghost use Rattle.record_grammar.specs.Reading.{kind_of, message_of, refused_length, timestamp_in};

use crate::front::{
    BODY_AT, Front, HEADER_LEN, ID_LEN, Kind, MAX_PAYLOAD, NONCE_LEN, Reason, front_of, kind_of,
    timestamp_in,
};
use std::alloc::{AllocError, Global};
use sync_ids::{
    Fixed, IdList, MAX_BODY, MAX_IDS, MAX_VERSIONS, Message, MessageId, Nonce, Record, VersionList,
};

/// What was read at the front of some bytes.
#[derive(Debug, Drop)]
pub enum Found {
    /// A record, and how many bytes it takes.
    One(Record, usize),
    /// A record of another type, and how many bytes it takes.
    Skipped(u8, usize),
    /// Nothing is decided before more bytes come.
    More,
    /// No record.
    Bad(Reason),
}

fn id_of(bytes: &[u8]) -> MessageId
    requires { length bytes.now ≡ ID_LEN }
    ensures { result ≡ bytes.now }
{
    let mut id = [0u8; ID_LEN];
    id.copy_from_slice(bytes);
    Fixed(id)
}

// The ids of a payload. What does not fill an id is left out.
fn ids_of(alloc: Global, payload: &[u8]) -> Result<Vec<MessageId>, AllocError>
    ensures { IfOk result (λ ids. ids.items ≡ ids_of payload.now) }
{
    let count = payload.len() / ID_LEN;
    let mut ids = Vec::with_capacity(alloc, count)?;
    'ids: for i in 0..count {
        ids.push(id_of(&payload[ID_LEN * i..ID_LEN * i + ID_LEN]))?;
    }
    Ok(ids)
}

fn id_list_of(alloc: Global, payload: &[u8]) -> Result<IdList<MAX_IDS>, AllocError>
    requires some { ID_LEN ≤ length payload.now }
    requires few { length payload.now ≤ MAX_PAYLOAD }
    ensures { IfOk result (λ ids. ids ≡ ids_of payload.now) }
{
    match IdList::new(ids_of(alloc, payload)?) {
        Ok(ids) => Ok(ids),
        Err(_) => unreachable!(),
    }
}

fn message_of(alloc: Global, payload: &[u8]) -> Result<Message, AllocError>
    requires some { BODY_AT < length payload.now }
    requires few { length payload.now ≤ BODY_AT + MAX_BODY }
    requires time { timestamp_in payload.now < 2 ^ 63 }
    ensures { IfOk result (λ message. message ≡ message_of payload.now) }
{
    let group = id_of(&payload[..ID_LEN]);
    let body = Vec::from_slice(alloc, &payload[BODY_AT..])?;
    match Message::new(group, timestamp_in(payload), body) {
        Ok(message) => Ok(message),
        Err(_) => unreachable!(),
    }
}

fn versions_of(alloc: Global, payload: &[u8]) -> Result<VersionList, AllocError>
    requires some { 1 ≤ length payload.now }
    requires few { length payload.now ≤ MAX_VERSIONS }
    ensures { IfOk result (λ versions. versions ≡ payload.now) }
{
    match VersionList::new(Vec::from_slice(alloc, payload)?) {
        Ok(versions) => Ok(versions),
        Err(_) => unreachable!(),
    }
}

fn nonce_of(payload: &[u8]) -> Nonce
    requires { length payload.now ≡ NONCE_LEN }
    ensures { result ≡ payload.now }
{
    let mut nonce = [0u8; NONCE_LEN];
    nonce.copy_from_slice(payload);
    Fixed(nonce)
}

// The record of a whole payload whose length and time have passed.
fn record_of(alloc: Global, type_byte: u8, payload: &[u8]) -> Result<Found, AllocError>
    requires passes { refused_length (kind_of type_byte) (length payload.now) ≡ None }
    requires decided { decided_payload (kind_of type_byte) type_byte payload.now ≡ Front.Whole
        type_byte (length payload.now) }
    ensures { IfOk result (λ found. found ≡ found_payload (kind_of type_byte) type_byte
        payload.now) }
{
    let used = HEADER_LEN + payload.len();
    Ok(match kind_of(type_byte) {
        Kind::Ack => Found::One(Record::Ack(id_list_of(alloc, payload)?), used),
        Kind::Message => Found::One(Record::Message(message_of(alloc, payload)?), used),
        Kind::Offer => Found::One(Record::Offer(id_list_of(alloc, payload)?), used),
        Kind::Request => Found::One(Record::Request(id_list_of(alloc, payload)?), used),
        Kind::Versions => Found::One(Record::Versions(versions_of(alloc, payload)?), used),
        Kind::Priority => Found::One(Record::Priority(nonce_of(payload)), used),
        Kind::Other => Found::Skipped(type_byte, used),
    })
}

/// Reads what stands at the front of these bytes (BSP, "Records"). It fails only for want of
/// memory.
pub fn read_one(alloc: Global, bytes: &[u8]) -> Result<Found, AllocError>
    ensures exact { IfOk result (λ found. found ≡ found_in bytes.now) }
    ensures spelled { IfOk result (λ found. IsSpelled bytes.now found) }
    ensures goes_on { IfOk result (λ found. TellsStream bytes.now found) }
{
    match front_of(bytes) {
        Front::More => Ok(Found::More),
        Front::Bad(reason) => Ok(Found::Bad(reason)),
        Front::Whole(type_byte, len) => {
            record_of(alloc, type_byte, &bytes[HEADER_LEN..HEADER_LEN + len])
        }
    }
}
