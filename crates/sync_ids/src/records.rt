//! The records of the protocol as values.
ghost use Rattle.sync_ids.specs.Records.{IsRecord};

use crate::fixed::Nonce;
use crate::lists::{IdList, MAX_IDS, VersionList};
use crate::message::Message;

/// A record (BSP, "Records"). A record's list of ids has at most 1,536 (`MAX_IDS`).
#[derive(Debug, Drop)]
pub enum Record {
    /// The ids of messages that were received or seen.
    Ack(IdList<MAX_IDS>),
    /// A message.
    Message(Message),
    /// The ids of messages that could be sent.
    Offer(IdList<MAX_IDS>),
    /// The ids of messages that are wanted.
    Request(IdList<MAX_IDS>),
    /// The versions of the protocol that are spoken.
    Versions(VersionList),
    /// The nonce by which one of several links is kept (this project's profile).
    Priority(Nonce),
}

/// Every record that a program holds is within its limits. A clause that speaks of some record
/// ranges over all values of its type; by this law it may be said of one at hand. It does nothing.
pub fn records_are_within(record: &Record)
    ensures { IsRecord «record».now }
{
    match record {
        Record::Ack(ids) | Record::Offer(ids) | Record::Request(ids) => {
            let _ids = ids.as_slice();
        }
        Record::Message(message) => {
            let _body = message.body();
        }
        Record::Versions(versions) => {
            let _versions = versions.as_slice();
        }
        Record::Priority(nonce) => {
            let _nonce = nonce.as_bytes();
        }
    }
}
