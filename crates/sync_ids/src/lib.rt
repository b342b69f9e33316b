//! The values of the Bramble Synchronisation Protocol: identifiers, the definition of a group,
//! messages, and records as values within their limits.
#![tactic(auto)]

mod def;
mod fixed;
mod ids;
mod lists;
mod message;
mod records;

pub use def::{DefFault, GroupDef, MAX_DESCRIPTOR, MAX_NAME};
pub use fixed::{Fixed, GroupId, MessageId, Nonce, NotHex};
pub use ids::{group_id, message_id, message_ids_are_whole};
pub use lists::{IdList, ListFault, MAX_IDS, MAX_VERSIONS, VersionList};
pub use message::{MAX_BODY, MAX_TIMESTAMP, Message, MessageFault};
pub use records::{Record, records_are_within};
