//! The limits that a legal journal keeps: how many contacts and groups, how many
//! dependencies, how many ids are wanted, how many sessions, and how much stands in a batch.

/// The greatest number of contacts; a contact's number is below it.
pub const MAX_CONTACTS: usize = 256;

/// The greatest number of groups.
pub const MAX_GROUPS: usize = 1024;

/// The greatest number of dependencies of a message.
pub const MAX_DEPS: usize = 255;

/// The greatest number of ids that are wanted from one contact.
pub const MAX_WANTED: u32 = 1000;

/// The greatest number of entries in a settling batch.
pub const MAX_STEPS: usize = 256;

/// The greatest number of sessions; a session's number is below it.
pub const MAX_SESSIONS: u32 = 4_294_967_295;

/// The greatest number of entries in a batch of rows and wanted ids of a brief account.
pub const MAX_ROWS: usize = 1000;

/// The greatest count of tries of a message to a contact; further ones are not counted.
pub const MAX_TRIES: u8 = 64;
