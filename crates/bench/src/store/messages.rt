//! The entries of a journal that brings messages, and the ids of these.
use crate::group::make_group;
use crate::stop::Stop;
use std::alloc::Global;
use sync_ids::{Fixed, GroupId, MAX_BODY, Message, MessageId, group_id, message_id};
use sync_rules::{Entry, Level};

/// How many messages there are, how long each body is, and with how many contacts their group is
/// shared.
#[derive(Clone, Copy)]
pub(crate) struct Plan {
    pub(crate) messages: u32,
    pub(crate) length: usize,
    pub(crate) contacts: u8,
}

/// The entries but for settling: the group, each contact and its level, and the messages.
#[derive(Drop)]
pub(crate) struct Entries {
    alloc: Global,
    plan: Plan,
    group: GroupId,
    body: Vec<u8>,
}

impl Entries {
    /// The entries of a plan.
    pub(crate) fn new(alloc: Global, plan: Plan) -> Result<Entries, Stop> {
        let group = group_id(&make_group(alloc)?);
        let body = vec![in alloc; b'a'; plan.length]?;
        Ok(Entries {
            alloc,
            plan,
            group,
            body,
        })
    }

    /// How many entries stand before the messages.
    fn before(&self) -> u64 {
        1 + 2 * u64::from(self.plan.contacts)
    }

    /// How many entries there are.
    pub(crate) fn len(&self) -> u64 {
        self.before().saturating_add(u64::from(self.plan.messages))
    }

    /// The entry of this number.
    pub(crate) fn get(&self, k: u64) -> Result<Entry, Stop> {
        if k == 0 {
            let def = make_group(self.alloc)?;
            return Ok(Entry::Group(def));
        }
        match k.checked_sub(self.before()) {
            Some(n) => Ok(Entry::Author(self.message(n)?)),
            None => self.share(k - 1),
        }
    }

    /// Two entries a contact: it is added, and the group is shared with it.
    fn share(&self, k: u64) -> Result<Entry, Stop> {
        let Ok(contact) = u8::try_from(k / 2) else {
            return Err(Stop::NoValue);
        };
        if k % 2 == 0 {
            Ok(Entry::Contact(contact))
        } else {
            Ok(Entry::Level(contact, self.group, Level::Shared))
        }
    }

    /// The message of this number, which is its time.
    fn message(&self, n: u64) -> Result<Message, Stop> {
        let body = self.body.clone()?;
        Message::new(self.group, n, body).map_err(|_| Stop::NoValue)
    }

    /// The ids of all messages, as one sum.
    pub(crate) fn mixed_ids(&self) -> Result<MessageId, Stop> {
        if self.body.len() > MAX_BODY {
            return Err(Stop::NoValue);
        }
        let mut sum = Fixed([0; 32]);
        for n in 0..self.plan.messages {
            sum = mixed(
                sum,
                &message_id(&self.group, u64::from(n), self.body.as_slice()),
            );
        }
        Ok(sum)
    }
}

/// The sum of two ids, bit by bit and without carry.
fn mixed(first: MessageId, second: &MessageId) -> MessageId {
    let mut bytes = first.0;
    for (to, from) in bytes.iter_mut().zip(second.as_bytes()) {
        *to ^= *from;
    }
    Fixed(bytes)
}
