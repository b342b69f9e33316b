//! The entries of a journal, and its batches.
ghost use Rattle.std.specs.Prelude.{◌≡◌, ◌≤◌, ◌↔◌, [], ◌∷◌, ◌++◌, length, IfOk, IsErr, OnErr, OnOk};

use crate::states::Origin;
use std::alloc::{AllocError, Global};
use std::marker::Model;
use sync_ids::{GroupDef, GroupId, IdList, MAX_IDS, Message, MessageId, Nonce};

/// How far a contact sees a group (BSP, "Group visibility").
#[derive(Clone, Copy, Debug, PartialEq, Eq)]
pub enum Level {
    /// Nothing is accepted from the contact and nothing is sent.
    Invisible,
    /// Messages are accepted from the contact and not sent to it.
    Visible,
    /// Messages are accepted and sent.
    Shared,
}

/// How a session sends (BSP, "Sync modes").
#[derive(Clone, Copy, Debug, PartialEq, Eq)]
pub enum Mode {
    /// Offers, and sends what was requested.
    Interactive,
    /// Sends without an offer.
    Batch,
}

/// One use of one link with one contact. Sessions are numbered from 0 over the life of a store.
#[derive(Clone, Copy, Debug, PartialEq, Eq)]
pub struct Session {
    /// The session's number.
    pub number: u32,
    /// The contact at the other end.
    pub contact: u8,
    /// How it sends.
    pub mode: Mode,
    /// The greatest expected time of one way, in milliseconds, at least 1.
    pub latency: u32,
    /// The nonce of an interactive session whose link was dialled.
    pub nonce: Option<Nonce>,
}

/// What one output of a session is made of; it is committed before its bytes are sent.
#[derive(Debug, Drop)]
pub enum Out {
    /// Acknowledges these messages.
    Acks(IdList<MAX_IDS>),
    /// Requests these messages.
    Requests(IdList<MAX_IDS>),
    /// Offers these messages.
    Offers(IdList<MAX_IDS>),
    /// Sends this message.
    Send(MessageId),
}

/// What is kept of a message for a contact once the history of its sessions is dropped, as a brief
/// account of a journal states it.
#[derive(Clone, Copy, Debug, PartialEq, Eq)]
pub struct Tried {
    /// The contact.
    pub contact: u8,
    /// The message's id.
    pub id: MessageId,
    /// The contact has the message.
    pub seen: bool,
    /// The message waits for our acknowledgement to the contact.
    pub owed: bool,
    /// The contact asked for the message.
    pub asked: bool,
    /// How often the message was sent or offered to the contact since, at most `MAX_TRIES`.
    pub tries: u8,
    /// The time in milliseconds from which it may be sent or offered again, 0 where `tries` is 0.
    pub expiry: u64,
}

/// An entry of a journal. The last four kinds stand in a brief account alone, which begins a
/// journal in place of a longer one.
#[derive(Debug, Drop)]
pub enum Entry {
    /// A contact was added, with this number.
    Contact(u8),
    /// A group was added.
    Group(GroupDef),
    /// A group's level for a contact was set.
    Level(u8, GroupId, Level),
    /// A session began.
    Session(Session),
    /// On this session the record of this number, from 0, was taken.
    Take(u32, u64),
    /// A message was written on this device.
    Author(Message),
    /// A message arrived on this session.
    Arrive(u32, Message),
    /// A held message was judged by its client.
    Judged(MessageId),
    /// A message was handed to its client.
    Deliver(MessageId),
    /// A message is invalid.
    Invalid(MessageId),
    /// On this session a held message was sent or offered again.
    Again(u32, MessageId),
    /// On this session a message that is not held was offered.
    Offered(u32, MessageId),
    /// On this session a held message was acknowledged.
    Seen(u32, MessageId),
    /// On this session a held message was requested.
    Asked(u32, MessageId),
    /// On this session, at this time in milliseconds, this was sent.
    Out(u32, u64, Out),
    /// A brief account begins: so many sessions have begun and are dropped.
    Brief(u32),
    /// A message is held, from there.
    Kept(Origin, Message),
    /// This is kept of a message for a contact.
    Tried(Tried),
    /// This id is wanted from this contact.
    Want(u8, MessageId),
}

/// What is committed to a journal at once: a list of one or more entries. Contracts see that list.
#[derive(Debug, Drop)]
pub struct Batch {
    entries: Vec<Entry>,
}

impl Model for Batch {
    ghost use Rattle.std.specs.Prelude.{◌≤◌, List, length};
    ghost use Rattle.sync_rules.specs.declared.entries.Entry.{Entry};

    ghost Value = { List Entry };

    ghost view = { λ b. b.entries.items };

    ghost invariant = { λ b. 1 ≤ length b.entries.items };
}

/// A batch has at least one entry.
#[derive(Clone, Copy, Debug, PartialEq, Eq)]
pub struct EmptyBatch;

impl Batch {
    /// A batch of these entries. `EmptyBatch` comes exactly where there are none. It takes no
    /// memory.
    pub fn new(entries: Vec<Entry>) -> Result<Batch, EmptyBatch>
        ensures made { IfOk result (λ b. b ≡ entries.items) }
        ensures empty { IsErr result ↔ (entries.items ≡ []) }
    {
        if entries.is_empty() {
            return Err(EmptyBatch);
        }
        Ok(Batch { entries })
    }

    /// A batch of this one entry. It fails only for want of memory.
    pub fn single(alloc: Global, entry: Entry) -> Result<Batch, AllocError>
        ensures { IfOk result (λ b. b ≡ entry ∷ []) }
    {
        let mut entries = Vec::new(alloc);
        entries.push(entry)?;
        Ok(Batch { entries })
    }

    /// The entries.
    pub fn entries(&self) -> &[Entry]
        ensures value { result.now ≡ self.now }
        ensures some { 1 ≤ length self.now }
    {
        self.entries.as_slice()
    }

    /// One more entry at the end; after an error the batch is as before.
    pub fn push(&mut self, entry: Entry) -> Result<(), AllocError>
        ensures ok { OnOk result (self.new ≡ self.old ++ entry ∷ []) }
        ensures err { OnErr result (self.new ≡ self.old) }
    {
        self.entries.push(entry)?;
        Ok(())
    }

    /// The entries, given back without taking memory.
    pub fn into_entries(self) -> Vec<Entry>
        ensures value { result.items ≡ self }
        ensures some { 1 ≤ length self }
    {
        self.entries
    }
}
