//! What stands at the front of some bytes, decided without taking memory.
ghost use Rattle.std.specs.Prelude.{◌≡◌, ◌+◌, ◌≤◌, length, drop};
ghost use Rattle.record_grammar.specs.Reading.{AnswersBytes, decided_header, decided_payload, front_in};
ghost use Rattle.record_grammar.specs.Reading.{kind_of, refused_for, refused_ids, refused_length};
ghost use Rattle.record_grammar.specs.Reading.{timestamp_in};

use sync_ids::{MAX_BODY, MAX_VERSIONS};

/// The greatest length of a payload, in bytes (BSP, "Records").
pub const MAX_PAYLOAD: usize = 49_152;

/// The length of the longest record, in bytes.
pub const MAX_RECORD: usize = HEADER_LEN + MAX_PAYLOAD;

/// The length of a record's header, in bytes: version, type and the payload's length.
pub const HEADER_LEN: usize = 4;

pub(crate) const ID_LEN: usize = 32;

pub(crate) const NONCE_LEN: usize = 16;

// Where the body begins in the payload of a message, behind the group's id and the time.
pub(crate) const BODY_AT: usize = 40;

/// Why the front of some bytes is no record.
#[derive(Clone, Copy, Debug, PartialEq, Eq)]
pub enum Reason {
    /// The first byte is not 0.
    WrongVersion,
    /// The payload's length is over 49,152, whatever the type.
    TooLong,
    /// A list of ids is empty.
    EmptyIds,
    /// A list of ids is no multiple of 32 bytes.
    RaggedIds,
    /// The payload of a message is below 41 bytes.
    ShortMessage,
    /// The payload of a message is above 32,808 bytes.
    BodyTooLong,
    /// The top bit of a message's time is set.
    BadTimestamp,
    /// There are no versions or more than 10.
    BadVersions,
    /// A nonce has another length than 16 bytes.
    BadNonce,
}

/// What a byte of type says.
#[derive(Clone, Copy, Debug, PartialEq, Eq)]
pub enum Kind {
    Ack,
    Message,
    Offer,
    Request,
    Versions,
    Priority,
    Other,
}

/// What stands at the front of some bytes.
#[derive(Clone, Copy, Debug, PartialEq, Eq)]
pub enum Front {
    /// Nothing is decided before more bytes come.
    More,
    /// No record.
    Bad(Reason),
    /// A whole record or skipped record: its byte of type, and its payload's length.
    Whole(u8, usize),
}

pub(crate) fn kind_of(type_byte: u8) -> Kind
    ensures { result ≡ kind_of type_byte }
{
    match type_byte {
        0 => Kind::Ack,
        1 => Kind::Message,
        2 => Kind::Offer,
        3 => Kind::Request,
        4 => Kind::Versions,
        5 => Kind::Priority,
        _ => Kind::Other,
    }
}

fn refused_ids(len: usize) -> Option<Reason>
    ensures { result ≡ refused_ids len }
{
    if len == 0 {
        Some(Reason::EmptyIds)
    } else if len % ID_LEN == 0 {
        None
    } else {
        Some(Reason::RaggedIds)
    }
}

fn refused_for(kind: Kind, len: usize) -> Option<Reason>
    ensures { result ≡ refused_for kind len }
{
    match kind {
        Kind::Ack | Kind::Offer | Kind::Request => refused_ids(len),
        Kind::Message if len <= BODY_AT => Some(Reason::ShortMessage),
        Kind::Message if len > BODY_AT + MAX_BODY => Some(Reason::BodyTooLong),
        Kind::Versions if len == 0 || len > MAX_VERSIONS => Some(Reason::BadVersions),
        Kind::Priority if len != NONCE_LEN => Some(Reason::BadNonce),
        Kind::Message | Kind::Versions | Kind::Priority | Kind::Other => None,
    }
}

fn refused_length(kind: Kind, len: usize) -> Option<Reason>
    ensures { result ≡ refused_length kind len }
{
    if len > MAX_PAYLOAD {
        Some(Reason::TooLong)
    } else {
        refused_for(kind, len)
    }
}

pub(crate) fn timestamp_in(payload: &[u8]) -> u64
    requires { BODY_AT ≤ length payload.now }
    ensures { result ≡ timestamp_in payload.now }
{
    let mut bytes = [0u8; 8];
    bytes.copy_from_slice(&payload[ID_LEN..BODY_AT]);
    u64::from_be_bytes(bytes)
}

fn decided_header(kind: Kind, type_byte: u8, len: usize, rest: &[u8]) -> Front
    ensures { result ≡ decided_header kind type_byte len rest.now }
{
    if let Some(reason) = refused_length(kind, len) {
        return Front::Bad(reason);
    }
    if rest.len() < len {
        return Front::More;
    }
    if kind == Kind::Message && timestamp_in(&rest[..len]) >= 1 << 63 {
        return Front::Bad(Reason::BadTimestamp);
    }
    Front::Whole(type_byte, len)
}

/// What stands at the front of these bytes, decided as soon as it can be: a version other than 0 at
/// the first byte, a wrong length at the fourth, and a time with its top bit set once the whole
/// record is there. It takes no memory.
pub fn front_of(bytes: &[u8]) -> Front
    ensures value { result ≡ front_in bytes.now }
    ensures backed { AnswersBytes bytes.now result }
{
    if bytes.is_empty() {
        return Front::More;
    }
    if bytes[0] != 0 {
        return Front::Bad(Reason::WrongVersion);
    }
    if bytes.len() < HEADER_LEN {
        return Front::More;
    }
    let type_byte = bytes[1];
    let len = bytes[2] as usize * 256 + bytes[3] as usize;
    decided_header(kind_of(type_byte), type_byte, len, &bytes[HEADER_LEN..])
}
