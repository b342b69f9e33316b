//! What is said of a message, how a journal began, and why a command is refused.

/// The state of a held message (BSP, "Message validation and delivery").
#[derive(Clone, Copy, Debug, PartialEq, Eq)]
pub enum Fate {
    /// Held, and not yet judged by its client.
    Unknown,
    /// Judged valid, with some dependency that is not delivered.
    Pending,
    /// Refused by its client, or with a dependency in another group, or with an invalid one.
    Invalid,
    /// Handed to its client.
    Delivered,
}

/// Where a held message came from.
#[derive(Clone, Copy, Debug, PartialEq, Eq)]
pub enum Origin {
    /// It was written on this device.
    Author,
    /// It came from the contact of this number.
    From(u8),
}

/// How a journal began: with nothing yet, with a brief account to which nothing else was added, or
/// otherwise.
#[derive(Clone, Copy, Debug, PartialEq, Eq)]
pub enum Start {
    /// It has no entry.
    Empty,
    /// It is a brief account so far, so more of the account may follow.
    Opening,
    /// It has an entry that is none of a brief account.
    Going,
}

/// Why a command is refused. The journal is then as it was.
#[derive(Clone, Copy, Debug, PartialEq, Eq)]
pub enum Refused {
    /// No client has the group's name and major version.
    UnknownClient,
    /// 256 contacts are known.
    TooManyContacts,
    /// The group is known already.
    GroupExists,
    /// 1,024 groups are known.
    TooManyGroups,
    /// No contact has this number.
    UnknownContact,
    /// No known group has this id.
    UnknownGroup,
    /// The body is empty.
    EmptyBody,
    /// The body is over 32,768 bytes.
    BodyTooLong,
    /// A message of this id is held.
    AlreadyHeld,
    /// The client refuses the message.
    InvalidPost,
    /// Some dependency is not a delivered message of the same group.
    DependencyNotDelivered,
    /// No message of this id is held.
    UnknownMessage,
    /// 4,294,967,295 sessions are begun.
    TooManySessions,
    /// The group is none of those in which groups are shared.
    NotSharing,
}
