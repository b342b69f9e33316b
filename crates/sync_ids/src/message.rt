//! A message.
ghost use Rattle.std.specs.Prelude.{◌≡◌, ◌^◌, ◌<◌, ◌≤◌, ◌↔◌, length, IfOk, IsErrOf};

use crate::fixed::GroupId;
use std::alloc::{AllocError, Global};
use std::marker::Model;
use thiserror::Error;

/// The greatest length of a body, in bytes.
pub const MAX_BODY: usize = 32_768;

/// The greatest time of a message, in milliseconds since 1970.
pub const MAX_TIMESTAMP: u64 = 0x7fff_ffff_ffff_ffff;

/// An immutable message of a group. Contracts see a record of the group's id, the time and the
/// body.
#[derive(Debug, Drop)]
pub struct Message {
    group: GroupId,
    timestamp: u64,
    body: Vec<u8>,
}

impl Model for Message {
    ghost use Rattle.sync_ids.specs.Values.{IsMessage, MessageValue};

    ghost Value = { MessageValue };

    ghost view = { λ m. record { group = m.group; timestamp = m.timestamp; body = m.body.items } };

    ghost invariant = { λ m. IsMessage
        (record { group = m.group; timestamp = m.timestamp; body = m.body.items }) };
}

/// Why a message was refused.
#[derive(Clone, Copy, Debug, PartialEq, Eq, Error)]
pub enum MessageFault {
    /// The body is empty.
    #[error("the body is empty")]
    EmptyBody,
    /// The body is over 32,768 bytes.
    #[error("the body is over 32768 bytes")]
    BodyTooLong,
    /// The timestamp is over 2^63 - 1.
    #[error("the timestamp is over 2^63 - 1")]
    BadTimestamp,
}

impl Message {
    ghost use Rattle.sync_ids.specs.Values.{IsMessage};

    /// A message of these parts. The refusals come in the order of `MessageFault`, each exactly
    /// where its variant says and no earlier one came. It takes no memory.
    pub fn new(group: GroupId, timestamp: u64, body: Vec<u8>) -> Result<Message, MessageFault>
        ensures made { IfOk result
            (λ m. m ≡ record { group = group; timestamp = timestamp; body = body.items }) }
        ensures within { IfOk result (λ m. IsMessage m) }
        ensures empty { IsErrOf result MessageFault.EmptyBody ↔ (length body.items ≡ 0) }
        ensures too_long { IsErrOf result MessageFault.BodyTooLong
            ↔ (MAX_BODY < length body.items) }
        ensures bad_timestamp { IsErrOf result MessageFault.BadTimestamp
            ↔ ((1 ≤ length body.items) × (length body.items ≤ MAX_BODY)
            × (MAX_TIMESTAMP < timestamp)) }
    {
        group.show_len();
        if body.is_empty() {
            return Err(MessageFault::EmptyBody);
        }
        if body.len() > MAX_BODY {
            return Err(MessageFault::BodyTooLong);
        }
        if timestamp > MAX_TIMESTAMP {
            return Err(MessageFault::BadTimestamp);
        }
        Ok(Message {
            group,
            timestamp,
            body,
        })
    }

    /// The id of the message's group.
    pub fn group(&self) -> GroupId
        ensures { result ≡ self.now.group }
    {
        self.group
    }

    /// The message's time, in milliseconds since 1970.
    pub fn timestamp(&self) -> u64
        ensures value { result ≡ self.now.timestamp }
        ensures within { IsMessage self.now }
    {
        self.timestamp
    }

    /// The body.
    pub fn body(&self) -> &[u8]
        ensures value { result.now ≡ self.now.body }
        ensures within { IsMessage self.now }
    {
        self.body.as_slice()
    }

    /// An equal message in memory of its own. It fails only for want of memory.
    pub fn copy(&self, alloc: Global) -> Result<Message, AllocError>
        ensures { IfOk result (λ copied. copied ≡ self.now) }
    {
        Ok(Message {
            group: self.group,
            timestamp: self.timestamp,
            body: self.body.as_slice().to_vec(alloc)?,
        })
    }
}
